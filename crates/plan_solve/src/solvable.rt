//! The trait of problems that can be solved.

ghost use Rattle.std.specs.Prelude.{IfOk, IfSome};
ghost use Rattle.plan_sgs.specs.Problem.{Problem};
ghost use Rattle.plan_sgs.specs.declared.schedule.Schedule.{Schedule};
ghost use Rattle.plan_kernel.specs.Plans.{IsPlain};
ghost use Rattle.plan_solve.specs.Solutions.{IsLowerBound};

use plan_kernel::Input;
use plan_sgs::Schedule;
use std::alloc::{AllocError, Global};

/// A project or a job shop.
pub trait Solvable {
    /// The scheduling problem that it stands for.
    ghost problem: { Self → Problem };

    /// The property of the schedules that are returned for it.
    ghost is_schedule: { Self → Schedule → Type 0 };

    /// Returns the numbers of the problem, with the pairs of activities that can't overlap.
    fn input(&self, alloc: Global) -> Result<Input, AllocError>
        ensures { IfOk result (λ input. IsPlain input (problem self.now)) };

    /// Returns the shortest schedule of the priority rules.
    fn by_rules(&self, alloc: Global) -> Result<Schedule, AllocError>
        ensures { IfOk result (is_schedule self.now) };

    /// Returns a lower bound of all makespans, without a search.
    fn simple_bound(&self, alloc: Global) -> Result<u64, AllocError>
        ensures { IfOk result (IsLowerBound (problem self.now)) };

    /// Returns an active schedule made from a feasible list of starts. For a job shop it is proved
    /// to be no longer than the list (plan_active).
    fn tightened(&self, alloc: Global, starts: &[u32]) -> Result<Option<Schedule>, AllocError>
        ensures { IfOk result (λ found. IfSome found (is_schedule self.now)) };
}
