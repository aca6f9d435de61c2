//! Errors of this crate.

ghost use Rattle.std.specs.Prelude.{◌≡◌};
ghost use Rattle.plan_exact.specs.declared.fault.ExactFault.TheVariants.{NoMemory};

use std::alloc::AllocError;
use thiserror::Error;

/// An error of a search for a best schedule.
#[derive(Debug, Drop, Error)]
pub enum ExactFault {
    /// Memory ran out.
    #[error("no memory")]
    NoMemory,
    /// The shop has more than 100 steps, or the project more than 40 activities.
    #[error("too large")]
    TooLarge,
    /// The budget is not from 1 to 200,000.
    #[error("the budget is not from 1 to 200,000")]
    BadBudget,
}

impl From<AllocError> for ExactFault {
    ghost from_gives = { λ _ fault. fault ≡ NoMemory };

    fn from(_error: AllocError) -> Self {
        ExactFault::NoMemory
    }
}
