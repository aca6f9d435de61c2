//! `plan solve` on a list with dates: from the bytes of its file to the text of a plan, or to an
//! error.
#![tactic(auto)]

mod cells;
mod clashes;
mod faults;
mod files;
mod kinds;
mod links;
mod listed;
mod notes;
mod order;
mod output;
mod plans;

pub use cells::dates_refusal;
pub use files::{WeekFile, week_file};
pub use kinds::has_week;
pub use links::week_links;
pub use listed::listed_week;
pub use notes::week_notes;
pub use order::WeekOrder;
pub use output::week_output;
pub use plan_weeks::Goal;
pub use plans::plan_of;
