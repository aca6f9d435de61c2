//! `plan days --solve` for a list with dates: the working days of its plan, and a list with
//! calendar dates as a list with instants.
#![tactic(auto)]

mod cells;
mod days;
mod instants;
mod output;
mod rows;

pub use days::week_days;
pub use instants::list_of_instants;
pub use output::days_output;
