//! Answer of a search.

/// Whether the value of an answer is known to be the least.
#[derive(Clone, Copy, Debug, PartialEq, Eq)]
pub enum Kind {
    /// No schedule of the tree has a smaller makespan.
    Optimal,
    /// The budget ended before all necessary words were visited.
    Budget,
}

/// The best schedule of a search: a full word of the tree, or no word if it is the initial
/// schedule.
#[derive(Debug, PartialEq, Eq, Drop)]
pub struct Answer {
    pub kind: Kind,
    /// The makespan, in whole time units.
    pub value: u64,
    pub word: Option<Vec<u32>>,
}
