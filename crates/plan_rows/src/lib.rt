//! The rows of an office, the rules that they keep, the calls of a book, and tables in memory.
#![tactic(auto)]

mod book;
mod calls;
mod fault;
mod keyed_rows;
mod kinds;
mod limits;
mod names;
mod row_tests;
mod rows;
mod tables;

pub use book::Book;
pub use calls::Calls;
pub use fault::BookFault;
pub use keyed_rows::{Listing, PlanKey, RowsByKey};
pub use kinds::{Kind, PlanKind};
pub use limits::{GREATEST_NUMBER, MOST_PLANS};
pub use names::{has_key, is_key, is_name, key_digest, plan_number};
pub use row_tests::{Beside, Review, is_desk_row, is_plan_row, is_published_row, is_world};
pub use rows::{BindEntry, CodeRow, DeskRow, LagEntry, PlanEntry, PlanRow};
pub use tables::digests::known_digest;
pub use tables::{BindRecord, DeskRecord, LagRecord, PlanRecord, Tables};
