//! Errors of this crate.

use std::alloc::{AllocError, AllocFailed};
use thiserror::Error;

/// An error of an instance, a list or the name of a rule.
#[derive(Debug, Drop, Error)]
pub enum SgsFault {
    /// Memory ran out.
    #[error("no memory")]
    NoMemory,
    /// Activity `act` has a positive duration and needs more of resource `res` than its capacity.
    /// It is the least such activity, with its least such resource.
    #[error("activity {act} needs too much of resource {res}")]
    NeedsTooMuch { act: u32, res: u32 },
    /// The list does not contain all activities, each once and after its predecessors.
    #[error("not an order of all activities that has each after its predecessors")]
    NotAList,
    /// No rule has this name.
    #[error("no rule has this name")]
    UnknownRule,
}

impl From<AllocError> for SgsFault {
    ghost use Rattle.std.specs.Prelude.{◌≡◌};
    ghost use Rattle.plan_sgs.specs.declared.fault.SgsFault.TheVariants.{NoMemory};

    ghost from_gives = { λ _ fault. fault ≡ NoMemory };

    fn from(_error: AllocError) -> Self {
        SgsFault::NoMemory
    }
}

impl<T: Drop> From<AllocFailed<T>> for SgsFault {
    ghost use Rattle.std.specs.Prelude.{◌≡◌};
    ghost use Rattle.plan_sgs.specs.declared.fault.SgsFault.TheVariants.{NoMemory};

    ghost from_gives = { λ _ fault. fault ≡ NoMemory };

    fn from(_error: AllocFailed<T>) -> Self {
        SgsFault::NoMemory
    }
}
