//! Why propagation stops.

use plan_kernel::Literal;
use std::alloc::{AllocError, AllocFailed};

/// Why a literal was made to hold: what its clause is made from when it is asked for.
#[derive(Clone, Copy, Drop)]
pub enum Cause {
    /// The search decided it.
    Decision,
    /// It is a fact.
    Fact,
    /// A kept clause.
    Kept(u32),
    /// An arc, or a link to the makespan.
    Link(u32),
    /// An order whose first activity goes before its second, with a value of the first.
    Before(u32, u32),
    /// An order whose second activity goes before its first, with a value of the second.
    After(u32, u32),
    /// A resource that is full at an instant.
    Full(u32, u32),
}

/// A clause that is false.
#[derive(Clone, Copy, Drop)]
pub enum Clash {
    /// The clause that would have made a literal hold.
    Bound(Literal, Cause),
    /// A resource is overloaded at an instant.
    Overload(u32, u32),
    /// A resource is overloaded from an instant to another.
    Window(u32, u32, u32),
}

/// Why propagation stops before all bounds are settled.
#[derive(Drop)]
pub enum Stop {
    NoMemory,
    Clash(Clash),
}

impl From<AllocError> for Stop {
    fn from(_error: AllocError) -> Self {
        Stop::NoMemory
    }
}

impl<T: Drop> From<AllocFailed<T>> for Stop {
    fn from(_error: AllocFailed<T>) -> Self {
        Stop::NoMemory
    }
}
