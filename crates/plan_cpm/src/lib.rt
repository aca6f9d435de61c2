//! Dates of activity networks by the critical path method: earliest and latest dates, floats, tails
//! and successors.
//!
//! The contracts define the dates by all paths; the code makes one forward and one backward pass.
#![tactic(auto)]

mod floats;
mod passes;
mod successors;
mod table;

pub use floats::dates;
pub use passes::tails;
pub use successors::total_successors;
pub use table::Dates;
