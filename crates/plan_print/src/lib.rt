//! The commands of `plan` that print sheets of schedules, from the bytes that they read to the
//! bytes that they write.
#![tactic(auto)]

mod charts;
mod digests;
mod events;
mod hours;
mod layouts;
mod links;
mod names;
mod prints;
mod reports;
mod sheets;
mod slacks;

pub use hours::hours_of;
pub use plan_sheet::{DayStyle, Events};
pub use prints::{NamedOrigin, Print, print_on_files, print_on_named};
pub use sheets::Sheet;
