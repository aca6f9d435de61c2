//! `plan check` on a list with dates: from the bytes of the list and of the starts to the verdict.
#![tactic(auto)]

mod cells;
mod faults;
mod kept;
mod opened;
mod output;
mod reading;
mod sentences;

pub use output::{CheckedWeek, checked_week};
pub use reading::read_open_starts;
