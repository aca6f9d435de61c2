//! Why there is no plan.

ghost use Rattle.std.specs.Prelude.{◌≡◌};
ghost use Rattle.plan_weeks.specs.declared.fault.PlanFault.TheVariants.{Memory};
ghost use Rattle.plan_weeks.specs.Faults as spec;

use plan_solve::SolveFault;
use plan_week::Overload;
use std::alloc::AllocError;

/// Why there is no plan of a week.
#[derive(Clone, Copy, Debug, Drop)]
pub enum PlanFault {
    /// Memory ran out.
    Memory,
    /// The number of conflicts is not from 1 to 1,000,000,000.
    BadConflicts,
    /// S11: begun work, appointments and absences alone are more than there is.
    Overload(Overload),
    /// S12: there is no plan.
    Impossible,
    /// S13: no plan was found.
    NotFound,
}

impl From<AllocError> for PlanFault {
    ghost from_gives = { λ _ fault. fault ≡ Memory };

    fn from(_error: AllocError) -> Self {
        PlanFault::Memory
    }
}

impl From<SolveFault> for PlanFault {
    ghost from_gives = { λ error fault. fault ≡ spec.plan_fault_of error };

    fn from(error: SolveFault) -> Self {
        match error {
            SolveFault::NoMemory => PlanFault::Memory,
            SolveFault::BadConflicts => PlanFault::BadConflicts,
        }
    }
}
