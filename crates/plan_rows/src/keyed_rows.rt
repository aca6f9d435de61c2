//! All rows of an office in the order of their keys.

ghost use Rattle.plan_rows.specs.BookCalls.{Answers};
ghost use Rattle.plan_rows.specs.KeyedRows.{AreRowsByKey};

use crate::book::Book;
use crate::fault::BookFault;
use crate::rows::CodeRow;
use crate::tables::{BindRecord, DeskRecord, LagRecord};

/// The desk and the number of a plan.
#[derive(Debug, Drop)]
pub struct PlanKey {
    pub desk: String,
    pub n: u64,
}

/// All rows of an office, each table in the order of its key. A plan has only its key here.
#[derive(Debug, Drop)]
pub struct RowsByKey {
    pub office: [u8; 32],
    pub published: Vec<CodeRow>,
    pub desks: Vec<DeskRecord>,
    pub plans: Vec<PlanKey>,
    pub binds: Vec<BindRecord>,
    pub lags: Vec<LagRecord>,
}

/// A book that can list its rows.
pub trait Listing: Book {
    /// Lists all rows by their keys.
    fn list(&mut self) -> Result<RowsByKey, BookFault>
        ensures { Answers Self.shelf self.old self.new result AreRowsByKey };
}
