//! The limits of an office.

/// The most plans that a desk can have.
pub const MOST_PLANS: usize = 100;

/// The greatest number of a plan. A desk numbers its plans 1, 2, .. and uses no number twice.
pub const GREATEST_NUMBER: u64 = 1_000_000;
