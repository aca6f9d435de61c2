//! A planner's own list with the start, the finish and the slack of its activities.
#![tactic(auto)]

mod columns;
mod fault;
mod lists;
mod sameness;
mod text;
mod times;

pub use columns::{header_with, place_in, put};
pub use fault::ListBackFault;
pub use lists::{list_back, spelled_rows};
pub use sameness::list_table;
pub use times::{Times, has_id};
