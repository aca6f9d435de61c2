//! Local search for short schedules of job shops.
#![tactic(auto)]

mod choice;
mod dates;
mod draws;
mod lists;
mod moves;
mod path;
mod rows;
mod search;
mod steps;
mod tabu;

pub use search::LocalSearch;
