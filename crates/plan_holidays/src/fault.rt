//! The errors of a text of holidays.

ghost use Rattle.std.specs.Prelude.{◌≡◌};
ghost use Rattle.plan_holidays.specs.declared.fault.HolidayFault.TheVariants as fault;

use std::alloc::AllocError;
use thiserror::Error;

/// An error of a text of holidays.
#[derive(Clone, Copy, Debug, PartialEq, Eq, Error)]
pub enum HolidayFault {
    /// The line with this number, counted from 1, is neither a date nor `DATE..DATE`, or the last
    /// date of a range is before the first one. Dates are from 1900-01-01 to 2199-12-31.
    #[error("G5 line {0} date")]
    BadLine(u64),
    /// The text names more than 10,000 days, each as often as it is named.
    #[error("G6 holidays")]
    TooMany,
    /// Memory ran out.
    #[error("E90 memory")]
    Memory,
}

impl From<AllocError> for HolidayFault {
    ghost from_gives = { λ _ first. first ≡ fault.Memory };

    fn from(_error: AllocError) -> Self {
        HolidayFault::Memory
    }
}
