//! The tables of an office in memory.

mod binds;
mod changes;
pub mod codes;
pub mod desks;
pub mod digests;
mod lags;
mod ordered;
pub mod plans;
mod queries;
mod records;

use crate::rows::CodeRow;
pub use records::{BindRecord, DeskRecord, LagRecord, PlanRecord};

/// The rows of an office, each table in the order of writing.
#[derive(Debug, Drop)]
pub struct Tables {
    pub office: [u8; 32],
    pub published: Vec<CodeRow>,
    pub desks: Vec<DeskRecord>,
    pub plans: Vec<PlanRecord>,
    pub binds: Vec<BindRecord>,
    pub lags: Vec<LagRecord>,
}
