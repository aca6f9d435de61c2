//! Errors of this crate.

use std::alloc::{AllocError, AllocFailed};
use thiserror::Error;

/// An error of a shop or of the name of a rule.
#[derive(Debug, Drop, Error)]
pub enum ShopFault {
    /// Memory ran out.
    #[error("no memory")]
    NoMemory,
    /// The least machine that is closed although a step of positive time is on it. Machines are
    /// numbered from 0.
    #[error("machine {0} is closed")]
    MachineClosed(u32),
    /// No rule has this name.
    #[error("no rule has this name")]
    UnknownRule,
}

impl From<AllocError> for ShopFault {
    ghost use Rattle.std.specs.Prelude.{◌≡◌};
    ghost use Rattle.plan_shop.specs.declared.fault.ShopFault.TheVariants.{NoMemory};

    ghost from_gives = { λ _ fault. fault ≡ NoMemory };

    fn from(_error: AllocError) -> Self {
        ShopFault::NoMemory
    }
}

impl<T: Drop> From<AllocFailed<T>> for ShopFault {
    ghost use Rattle.std.specs.Prelude.{◌≡◌};
    ghost use Rattle.plan_shop.specs.declared.fault.ShopFault.TheVariants.{NoMemory};

    ghost from_gives = { λ _ fault. fault ≡ NoMemory };

    fn from(_error: AllocFailed<T>) -> Self {
        ShopFault::NoMemory
    }
}
