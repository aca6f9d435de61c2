//! The limits as constants.

/// The least number of activities of a network.
pub const FEWEST_ACTIVITIES: usize = 2;

/// The greatest number of activities of a network.
pub const MOST_ACTIVITIES: usize = 502;

/// The longest that one activity lasts, in whole time units.
pub const LONGEST_DURATION: u64 = 10_000;

/// The greatest sum of the durations of one network, in whole time units.
pub const LONGEST_SUM: u64 = 1_000_000;

/// The greatest lag of one arc, in whole time units.
pub const LONGEST_LAG: u64 = 10_000;
