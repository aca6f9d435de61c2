//! A schedule and a lower bound that meet, or as near as the conflicts allow.

ghost use Rattle.std.specs.Prelude.{◌≡◌, ◌≤◌, nat_eq, IfOk, IfErr};
ghost use Rattle.plan_solve.specs.Progress.{HearsTruth};
ghost use Rattle.plan_solve.specs.Sessions.{IsSessionOf};
ghost use Rattle.plan_solve.specs.Solutions as spec;

use crate::fault::SolveFault;
use crate::log::Log;
use crate::schedules::shorter;
use crate::sessions::Session;
use crate::solvable::Solvable;
use crate::watcher::Watcher;
use plan_sgs::Schedule;
use std::alloc::{AllocError, Global};

/// The most conflicts of a search.
pub const MOST_CONFLICTS: u64 = 1_000_000_000;

/// A schedule and a lower bound of all makespans. If they meet, the schedule is proved to be a
/// shortest one.
#[derive(Debug, Drop)]
pub struct Solved {
    /// Starts in the order of the activities.
    pub schedule: Schedule,
    /// No feasible schedule has a makespan below it.
    pub lower: u64,
    /// How many conflicts there were.
    pub conflicts: u64,
}

impl Solved {
    /// Whether the schedule is proved to be a shortest one.
    pub fn is_optimal(&self) -> bool
        ensures { result ≡ nat_eq self.now.lower self.now.schedule.makespan }
    {
        self.lower == self.schedule.makespan
    }
}

/// Fails if a number of conflicts isn't allowed.
pub fn check(conflicts: u64) -> Result<(), SolveFault>
    ensures allowed { IfOk result (λ _. spec.IsConflictLimit conflicts) }
    ensures refused { IfErr result (λ fault.
        (fault ≡ SolveFault.BadConflicts) × (spec.IsConflictLimit conflicts → ⊥)) }
{
    if conflicts == 0 || conflicts > MOST_CONFLICTS {
        return Err(SolveFault::BadConflicts);
    }
    Ok(())
}

// Returns the shorter one of a schedule and the active schedule of starts that were found.
fn best_of<S: Solvable>(
    alloc: Global,
    source: &S,
    schedule: Schedule,
    starts: &[u32],
) -> Result<Schedule, AllocError>
    requires { S.is_schedule source.now schedule }
    ensures schedule { IfOk result (S.is_schedule source.now) }
    ensures no_longer { IfOk result (λ best. best.makespan ≤ schedule.makespan) }
{
    match source.tightened(alloc, starts)? {
        Some(found) => Ok(shorter(found, schedule)),
        None => Ok(schedule),
    }
}

/// Returns the result of a search that is continued from a known schedule and lower bound, with at
/// most so many conflicts.
pub fn searched_from<S: Solvable, W: Watcher, L: Log>(
    alloc: Global,
    source: &S,
    known: Solved,
    session: &mut Session,
    conflicts: u64,
    watcher: &mut W,
    log: &mut L,
) -> Result<Solved, AllocError>
    requires known { spec.IsKnown (S.problem source.now) (S.is_schedule source.now) known }
    requires session { IsSessionOf (S.problem source.now) session.old }
    ensures session { IsSessionOf (S.problem source.now) session.new }
    ensures no_worse { IfOk result (spec.IsNoWorse known) }
    ensures known { IfOk result (spec.IsKnown (S.problem source.now) (S.is_schedule source.now)) }
    ensures conflicts { IfOk result (λ solved. solved.conflicts ≤ conflicts) }
    ensures told { HearsTruth (S.problem source.now) conflicts
        (W.was_told watcher.old) (W.was_told watcher.new) }
{
    let (schedule, lower) = (known.schedule, known.lower);
    let found = session.run(alloc, source, &schedule, lower, conflicts, watcher, log)?;
    Ok(Solved {
        schedule: best_of(alloc, source, schedule, &found.starts)?,
        lower: found.lower,
        conflicts: found.conflicts,
    })
}

/// Returns the schedule of the rules and a lower bound that takes no search.
pub fn unsearched<S: Solvable>(alloc: Global, source: &S) -> Result<Solved, AllocError>
    ensures known { IfOk result (spec.IsKnown (S.problem source.now) (S.is_schedule source.now)) }
    ensures conflicts { IfOk result (λ solved. solved.conflicts ≡ 0) }
{
    Ok(Solved {
        schedule: source.by_rules(alloc)?,
        lower: source.simple_bound(alloc)?,
        conflicts: 0,
    })
}

/// Returns the result of a search with at most so many conflicts that starts from the schedule of
/// the rules and a lower bound that takes no search.
pub fn searched<S: Solvable, W: Watcher, L: Log>(
    alloc: Global,
    source: &S,
    conflicts: u64,
    watcher: &mut W,
    log: &mut L,
) -> Result<Solved, AllocError>
    ensures known { IfOk result (spec.IsKnown (S.problem source.now) (S.is_schedule source.now)) }
    ensures conflicts { IfOk result (λ solved. solved.conflicts ≤ conflicts) }
    ensures told { HearsTruth (S.problem source.now) conflicts
        (W.was_told watcher.old) (W.was_told watcher.new) }
{
    let known = unsearched(alloc, source)?;
    if known.lower >= known.schedule.makespan && !log.is_wanted() {
        return Ok(known);
    }
    let starts = &known.schedule.starts;
    let mut session = Session::new(alloc, source, starts, log.is_wanted())?;
    let solved = searched_from(alloc, source, known, &mut session, conflicts, watcher, log)?;
    session.end_log(alloc, &solved.schedule, log)?;
    Ok(solved)
}
