//! Proofs of optima of job shops: a search that refutes makespans and so proves lower bounds.
#![tactic(auto)]

mod branching;
mod cliques;
mod course;
mod deduction;
mod edges;
mod ends;
mod fault;
mod finder;
mod graph;
mod known;
mod nodes;
mod proof;
mod queue;
mod refutation;
mod search;
mod state;
mod watcher;
mod work;

pub use course::Course;
pub use fault::ProveFault;
pub use nodes::parse_nodes;
pub use proof::{MOST_NODES, Proof, prove, prove_from, prove_watched};
pub use watcher::{Unwatched, Watcher};
