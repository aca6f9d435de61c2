//! Readers of the holidays in a file, and of weekdays by their names.
#![tactic(auto)]

mod days;
mod entries;
mod fault;
mod holidays;
mod lines;
mod weekdays;

pub use fault::HolidayFault;
pub use holidays::{parse_holidays, with_holidays_in};
pub use weekdays::weekday_digits;
