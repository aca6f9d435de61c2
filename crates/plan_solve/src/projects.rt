//! Shortest schedules of projects.

ghost use Rattle.std.specs.Prelude.{IfOk, IfErr, IsErrOf};
ghost use Rattle.plan_sgs.specs.Instances.{problem_of};
ghost use Rattle.plan_solve.specs.Progress.{HearsTruth};
ghost use Rattle.plan_solve.specs.Solutions as spec;

use crate::bounds::simple_bound;
use crate::fault::SolveFault;
use crate::log::{Log, Unlogged};
use crate::orders::orders_of;
use crate::schedules::{by_rules, tightened};
use crate::solutions::{Solved, check, searched};
use crate::solvable::Solvable;
use crate::watcher::{Unwatched, Watcher};
use plan_kernel::Input;
use plan_sgs::{Instance, Schedule};
use std::alloc::{AllocError, Global};

impl<'a> Solvable for Instance<'a> {
    ghost use Rattle.plan_sgs.specs.Instances.{problem_of};
    ghost use Rattle.plan_solve.specs.Solutions.{IsActiveSchedule};

    ghost problem = { λ i. problem_of i };

    ghost is_schedule = { λ i schedule. IsActiveSchedule (problem_of i) schedule };

    fn input(&self, alloc: Global) -> Result<Input, AllocError> {
        Input::of_instance(alloc, self, orders_of(alloc, self)?)
    }

    fn by_rules(&self, alloc: Global) -> Result<Schedule, AllocError> {
        by_rules(alloc, self)
    }

    fn simple_bound(&self, alloc: Global) -> Result<u64, AllocError> {
        simple_bound(alloc, self)
    }

    fn tightened(&self, alloc: Global, starts: &[u32]) -> Result<Option<Schedule>, AllocError> {
        tightened(alloc, self, starts)
    }
}

/// The shortest schedule of a project that a search with at most so many conflicts finds, and the
/// greatest lower bound of all makespans that it proves.
///
/// Refused with [`SolveFault::BadConflicts`] if the number of conflicts is not from 1 to
/// 1,000,000,000. Out of memory can replace any result.
pub fn solve(alloc: Global, instance: &Instance, conflicts: u64) -> Result<Solved, SolveFault>
    ensures solved { IfOk result (spec.IsSolvedProject instance.now conflicts) }
    ensures refused { IfErr result (spec.RefusesSolving conflicts) }
    // A refusal takes no memory.
    ensures early { IsErrOf result SolveFault.NoMemory → spec.IsConflictLimit conflicts }
{
    solve_watched(alloc, instance, conflicts, &mut Unwatched)
}

/// Does the same, reports its progress to a watcher, and stops if the watcher says that it is late.
pub fn solve_watched<W: Watcher>(
    alloc: Global,
    instance: &Instance,
    conflicts: u64,
    watcher: &mut W,
) -> Result<Solved, SolveFault>
    ensures solved { IfOk result (spec.IsSolvedProject instance.now conflicts) }
    ensures refused { IfErr result (spec.RefusesSolving conflicts) }
    // A refusal takes no memory.
    ensures early { IsErrOf result SolveFault.NoMemory → spec.IsConflictLimit conflicts }
    // All that the watcher is told is true of the project, whatever the search comes to.
    ensures told { HearsTruth (problem_of instance.now) conflicts
        (W.was_told watcher.old) (W.was_told watcher.new) }
{
    solve_logged(alloc, instance, conflicts, watcher, &mut Unlogged)
}

/// Does the same, and writes what it proves to a log. With a log it also searches if the bounds that
/// need no search meet. No clause says what the log gets: a checker of logs checks it.
pub fn solve_logged<W: Watcher, L: Log>(
    alloc: Global,
    instance: &Instance,
    conflicts: u64,
    watcher: &mut W,
    log: &mut L,
) -> Result<Solved, SolveFault>
    ensures solved { IfOk result (spec.IsSolvedProject instance.now conflicts) }
    ensures refused { IfErr result (spec.RefusesSolving conflicts) }
    // A refusal takes no memory.
    ensures early { IsErrOf result SolveFault.NoMemory → spec.IsConflictLimit conflicts }
    // All that the watcher is told is true of the project, whatever the search comes to.
    ensures told { HearsTruth (problem_of instance.now) conflicts
        (W.was_told watcher.old) (W.was_told watcher.new) }
{
    check(conflicts)?;
    let searched = searched(alloc, instance, conflicts, watcher, log);
    watcher.end();
    Ok(searched?)
}
