//! The origin of a schedule.

/// The schedule that a text shows.
#[derive(Clone, Copy, Debug, Drop)]
pub enum Origin<'a> {
    /// The schedule by the priority rule with this name.
    Rule(&'a str),
    /// The feasible schedule whose starts a text lists, one for each activity in order.
    Starts(&'a [u8]),
    /// The schedule that a search of at most this many conflicts finds, as for `Task::Solve`.
    Solved { conflicts: u64 },
}
