//! Verdict of a check of a list of starts.

/// The first fault of a list of starts, or that it has none. Activities and resources are numbered
/// from 1.
#[derive(Debug, Clone, Copy, PartialEq, Eq, Drop)]
pub enum Verdict {
    /// The second activity starts too soon after the first, its predecessor. It is the first such
    /// pair, ordered by the first activity and then by the second.
    Arc(u32, u32),
    /// At this instant the activities need more of this resource than its capacity. It is the least
    /// such instant and its least such resource.
    Over(u64, u32),
    /// This activity can start earlier while all others keep their starts. It is the least such
    /// activity.
    Shift(u32),
    /// The list is feasible, and no activity can start earlier while all others keep their starts.
    Active,
}
