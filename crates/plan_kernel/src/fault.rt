//! Why a clause was not kept.

ghost use Rattle.std.specs.Prelude.{◌≡◌};
ghost use Rattle.plan_kernel.specs.declared.fault.KernelFault.TheVariants.{NoMemory};

use std::alloc::AllocError;
use thiserror::Error;

/// Why a clause was not kept. The kernel is then as it was.
#[derive(Debug, Drop, Error)]
pub enum KernelFault {
    /// Memory ran out.
    #[error("no memory")]
    NoMemory,
    /// The kernel already keeps as many literals as it may.
    #[error("too many literals")]
    Full,
    /// There is no conflict to learn from.
    #[error("no conflict")]
    NoConflict,
}

impl From<AllocError> for KernelFault {
    ghost from_gives = { λ _ fault. fault ≡ NoMemory };

    fn from(_error: AllocError) -> Self {
        KernelFault::NoMemory
    }
}
