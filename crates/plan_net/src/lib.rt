//! Activity networks: activities with whole durations, arcs with lags between them, and no cycle.
//!
//! The base of the schedulers: a [`Network`] is within the limits and has a topological order.
#![tactic(auto)]

mod arcs;
mod checks;
mod cycle;
mod fault;
mod index;
mod limits;
mod network;
mod order;
mod rows;
mod tables;

pub use fault::NetFault;
pub use index::index_of;
pub use limits::{FEWEST_ACTIVITIES, LONGEST_DURATION, LONGEST_LAG, LONGEST_SUM, MOST_ACTIVITIES};
pub use network::Network;
