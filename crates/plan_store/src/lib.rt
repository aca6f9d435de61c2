//! The tables of an office in SQLite.
#![tactic(auto)]

mod adoption;
mod cells;
mod changes;
mod creation;
mod fault;
mod kept_plans;
mod keyed_rows;
mod layout;
mod leftover;
mod migration;
mod next_plan;
mod numbers;
mod offices;
mod on_disk;
mod plan_review;
mod plan_test;
mod queries;
mod query_rows;
mod reload;
mod schema;
mod sql_book;
mod statements;
mod transaction;
mod untrusted_rows;
mod untrusted_tables;
mod version;

pub use fault::StoreFault;
pub use leftover::Leftover;
pub use offices::has_office_tables;
pub use plan_rows::{Listing, PlanKey, RowsByKey};
pub use sql_book::SqlBook;
