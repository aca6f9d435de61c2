//! Errors of this crate.

ghost use Rattle.std.specs.Prelude.{◌≡◌};
ghost use Rattle.plan_prove.specs.declared.fault.ProveFault.TheVariants.{NoMemory};

use std::alloc::AllocError;
use thiserror::Error;

/// An error of a search for a proof.
#[derive(Debug, Drop, Error)]
pub enum ProveFault {
    /// Memory ran out.
    #[error("no memory")]
    NoMemory,
    /// The number of nodes is not from 1 to 1,000,000,000.
    #[error("the number of nodes is not from 1 to 1,000,000,000")]
    BadNodes,
}

impl From<AllocError> for ProveFault {
    ghost from_gives = { λ _ fault. fault ≡ NoMemory };

    fn from(_error: AllocError) -> Self {
        ProveFault::NoMemory
    }
}
