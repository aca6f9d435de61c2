//! Reads job shop files: the `jobshop1` texts of OR-Library, each with many instances by name, and
//! the bare form of one shop without a name.
#![tactic(auto)]

mod instance_names;
mod instances;
mod laws;
mod shop;
mod steps;

pub use instance_names::names;
pub use laws::errors_show;
pub use shop::{ShopDoc, read_shop};
pub use steps::Step;
