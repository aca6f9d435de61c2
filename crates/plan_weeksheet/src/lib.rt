//! `plan report --solve` for a list with dates: from the bytes of the list to the page of its plan.
#![tactic(auto)]

mod amounts;
mod drawn;
mod laws;
mod limits;
mod names;
mod page;
mod rectangle;
mod rectangles;
mod report;

pub use laws::{rectangles_draw_the_use, rectangles_end_with_the_plan};
pub use page::PageDays;
pub use report::week_report;
