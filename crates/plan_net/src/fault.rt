//! The errors of this crate.

use std::alloc::{AllocError, AllocFailed};
use thiserror::Error;

/// An error of a network or of a change of a lag.
#[derive(Debug, Drop, Error)]
pub enum NetFault {
    /// Memory ran out.
    #[error("no memory")]
    NoMemory,
    /// The number of activities is not from 2 to 502.
    #[error("the number of activities is not from 2 to 502")]
    Size,
    /// The duration of this activity is above 10,000, or those up to it add up to more than
    /// 1,000,000.
    #[error("the duration of activity {0} is above a limit")]
    BadDuration(u32),
    /// An end of this arc isn't an activity.
    #[error("an end of the arc from {0} to {1} is no activity")]
    BadArc(u32, u32),
    /// This arc was given before.
    #[error("the arc from {0} to {1} was given before")]
    DoubleArc(u32, u32),
    /// These activities form a cycle, listed along the arcs from the least of them.
    #[error("a cycle")]
    Cycle(Vec<u32>),
    /// There is no arc between these two.
    #[error("there is no arc from {0} to {1}")]
    NoArc(u32, u32),
    /// The lag for this arc is above 10,000.
    #[error("the lag of the arc from {0} to {1} is above its limit")]
    BadLag(u32, u32),
}

impl From<AllocError> for NetFault {
    ghost use Rattle.std.specs.Prelude.{◌≡◌};
    ghost use Rattle.plan_net.specs.declared.fault.NetFault.TheVariants.{NoMemory};

    ghost from_gives = { λ _ fault. fault ≡ NoMemory };

    fn from(_error: AllocError) -> Self {
        NetFault::NoMemory
    }
}

impl<T: Drop> From<AllocFailed<T>> for NetFault {
    ghost use Rattle.std.specs.Prelude.{◌≡◌};
    ghost use Rattle.plan_net.specs.declared.fault.NetFault.TheVariants.{NoMemory};

    ghost from_gives = { λ _ fault. fault ≡ NoMemory };

    fn from(_error: AllocFailed<T>) -> Self {
        NetFault::NoMemory
    }
}
