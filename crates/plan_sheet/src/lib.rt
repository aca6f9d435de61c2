//! Sheets of a schedule to print or to hand on: charts as SVG, reports as HTML pages,
//! calendar files.
#![tactic(auto)]

mod axis;
mod axis_marks;
mod bars;
mod calendar_file;
mod changes;
mod chart;
mod cuts;
mod day_labels;
mod days;
mod escape;
mod events;
mod ics;
mod layouts;
mod moments;
mod names;
mod page;
mod parts;
mod pieces;
mod place;
mod plans;
mod reports;
mod styles;
mod table;
mod titles;
mod usage;
mod uses;

pub use calendar_file::Events;
pub use escape::escaped;
pub use events::ics_file;
pub use layouts::Layout;
pub use names::SheetNames;
pub use page::Heading;
pub use parts::EventNames;
pub use plans::svg_file;
pub use reports::{DayStyle, Margins, dated_report, report};
