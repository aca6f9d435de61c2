//! Lists with calendar dates: a date in a column of dates becomes its instant.
#![tactic(auto)]

mod calendar;
mod cells;
mod columns;
mod fault;
mod laws;
mod list;
mod rows;
mod text;

pub use calendar::InstantCalendar;
pub use columns::DateColumn;
pub use fault::{CellCode, CellFault, DateError};
pub use laws::days_have_their_instants;
pub use list::{DatedList, dated_list};
pub use text::write_rows;
