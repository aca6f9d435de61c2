//! Why a project was not solved.

ghost use Rattle.std.specs.Prelude.{◌≡◌};
ghost use Rattle.plan_solve.specs.declared.fault.SolveFault.TheVariants.{NoMemory};

use std::alloc::AllocError;
use thiserror::Error;

/// Why a project was not solved.
#[derive(Debug, Drop, Error)]
pub enum SolveFault {
    /// Memory ran out.
    #[error("no memory")]
    NoMemory,
    /// The number of conflicts is not from 1 to 1,000,000,000.
    #[error("the number of conflicts is not from 1 to 1,000,000,000")]
    BadConflicts,
}

impl From<AllocError> for SolveFault {
    ghost from_gives = { λ _ fault. fault ≡ NoMemory };

    fn from(_error: AllocError) -> Self {
        SolveFault::NoMemory
    }
}
