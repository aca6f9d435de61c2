//! `plan compare --old` on two lists with dates: from the bytes of the lists and of their starts to
//! the text of the comparison.
#![tactic(auto)]

mod faults;
mod output;
mod reading;
mod schedules;
mod shown;

pub use faults::of_old_list;
pub use output::compared_weeks;
pub use reading::ScheduledList;
