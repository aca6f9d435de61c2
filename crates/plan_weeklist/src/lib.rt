//! Lists with dates: the plain list that plan_table reads, and what its rows say of the week.
#![tactic(auto)]

mod absences;
mod arcs;
mod columns;
mod dates;
mod fault;
mod list;
mod listed;
mod numbers;
mod plain;
mod rows;
mod text;
mod week;

pub use columns::Columns;
pub use dates::{Beginning, Dates};
pub use fault::{WeekCode, WeekError, WeekFault};
pub use list::{WeekList, read_week_list};
pub use listed::{ListFault, ListedWeek, read_week};
pub use rows::{AbsenceRow, DatedRow, Shortage, WeekRows};
pub use week::week_of;
