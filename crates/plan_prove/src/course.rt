//! Course of a search that is continued by later calls.

use std::alloc::Global;

/// The number of nodes of each search of the first halving.
const FIRST_HALVING: u64 = 1;

/// The number of nodes of the first search below the best makespan. Later searches get more.
const FIRST_PATIENCE: u64 = 1_000;

/// How far the searches of a job shop have come. A later call on the same shop continues there. No
/// clause depends on it: the course of another shop can only cost time.
#[derive(Drop)]
pub struct Course {
    /// The number of failures of each pair plus 1, empty before the first call.
    pub weights: Vec<u32>,
    /// The number of nodes of each search of the present halving.
    pub halving: u64,
    /// The present halving is done above this makespan.
    pub above: u64,
    /// The number of nodes of the next search below the best makespan.
    pub patience: u64,
    /// A call begins no search after this number of nodes.
    pub turn: u64,
}

impl Course {
    /// Returns the course before the first call. Calls end by their number of nodes alone.
    pub fn new(alloc: Global) -> Course {
        Course {
            weights: Vec::new(alloc),
            halving: FIRST_HALVING,
            above: u64::MAX,
            patience: FIRST_PATIENCE,
            turn: u64::MAX,
        }
    }

    /// Goes on to the next halving.
    pub fn end_halving(&mut self) {
        self.halving = self.halving.saturating_mul(100);
        self.above = u64::MAX;
    }
}
