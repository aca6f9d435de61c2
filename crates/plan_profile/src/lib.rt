//! Usage of resources with constant capacities over time, and the earliest instant at which an
//! interval fits.
#![tactic(auto)]

mod profile;
mod row;
mod rows;
mod steps;

pub use profile::{END, Profile};
