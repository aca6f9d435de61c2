//! `--format list` for a list with dates: the planner's own list with the start, the finish and the
//! tardiness of its activities in a plan.
#![tactic(auto)]

mod back;
mod columns;
mod entries;
mod faults;
mod output;
mod plans;
mod readings;
mod sameness;
mod texts;

pub use entries::Entry;
pub use output::week_back_output;
pub use readings::{WeekReading, WeekText, week_text};
