//! Searches of several methods in turns, each from the schedule and the lower bound of the others.
#![tactic(auto)]

mod moves;
mod shops;

pub use shops::search_in_turns;
