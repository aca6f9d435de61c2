//! Lists that other programs have exported: their text becomes the plain list that plan_table
//! reads.
#![tactic(auto)]

mod acceptance;
mod assignments;
mod fault;
mod grid;
mod groups;
mod lags;
mod list;
mod notes;
mod optioned;
mod options;
mod parts;
mod prepared;
mod rewriting;
mod rows;
mod scaling;
mod units;
mod waiting;
mod waits;

pub use assignments::{amounts_of, place_of as names_place, with_names};
pub use fault::SpreadsheetFault;
pub use grid::spells;
pub use list::{PlainList, plain_list};
pub use optioned::{OptionedList, optioned_list};
pub use options::{Options, Rename, unit_of};
pub use parts::parts as cell_parts;
pub use prepared::{OptionsFault, plain_list_with};
pub use rows::filled;
