//! The errors of lists with times.

ghost use Rattle.std.specs.Prelude.{◌≡◌};
ghost use Rattle.plan_list_back.specs.declared.fault.ListBackFault.TheVariants as faults;

use std::alloc::AllocError;

/// Why a list isn't given back.
#[derive(Clone, Copy, Debug, PartialEq, Eq)]
pub enum ListBackFault {
    /// Memory ran out.
    Memory,
    /// The file isn't read as a list of activities.
    NoList,
    /// With the times it is longer than the longest text.
    TooLong,
    /// With the times it isn't read as the same project: a column `start`, `finish` or `slack` is a
    /// resource.
    Changed,
}

impl From<AllocError> for ListBackFault {
    ghost from_gives = { λ _ first. first ≡ faults.Memory };

    fn from(_error: AllocError) -> Self {
        ListBackFault::Memory
    }
}
