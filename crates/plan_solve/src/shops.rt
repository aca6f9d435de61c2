//! Shortest schedules of job shops.

ghost use Rattle.std.specs.Prelude.{IfOk, IfErr, IsErrOf};
ghost use Rattle.plan_shop.specs.Shop.{problem_of};
ghost use Rattle.plan_solve.specs.Solutions.{IsActiveShopSchedule};
ghost use Rattle.plan_solve.specs.Progress.{HearsTruth};
ghost use Rattle.plan_solve.specs.Sessions.{IsSessionOf};
ghost use Rattle.plan_solve.specs.Solutions as spec;

use crate::fault::SolveFault;
use crate::log::{Log, Unlogged};
use crate::schedules::shorter;
use crate::sessions::Session;
use crate::solutions::{Solved, check, searched, searched_from, unsearched};
use crate::solvable::Solvable;
use crate::watcher::{Unwatched, Watcher};
use plan_active::{active_shop_schedule, shop_bound};
use plan_kernel::{Input, Order};
use plan_sgs::Schedule;
use plan_shop::{Shop, ShopRule, giffler};
use std::alloc::{AllocError, Global};

// Adds an order of a step and each step of a greater number on its machine, in other jobs.
fn add_orders(shop: &Shop, first: u32, orders: &mut Vec<Order>) -> Result<(), AllocError> {
    let (count, machines) = (shop.jobs() * shop.machines(), shop.machines());
    if first >= count || machines == 0 {
        return Ok(());
    }
    let step = shop.step(first);
    for second in first..count {
        let other = shop.step(second);
        let is_pair = second / machines != first / machines && other.machine == step.machine;
        if is_pair && step.time > 0 && other.time > 0 {
            orders.push(Order { first, second })?;
        }
    }
    Ok(())
}

// Returns the pairs of steps of different jobs on one machine, without steps of time 0.
fn orders_of(alloc: Global, shop: &Shop) -> Result<Vec<Order>, AllocError> {
    let mut orders = Vec::new(alloc);
    for first in 0..shop.jobs() * shop.machines() {
        add_orders(shop, first, &mut orders)?;
    }
    Ok(orders)
}

// The schedule of a rule.
fn by_rule(alloc: Global, shop: &Shop, rule: ShopRule) -> Result<Schedule, AllocError>
    ensures { IfOk result (IsActiveShopSchedule shop.now) }
{
    match giffler(alloc, shop, rule) {
        Ok(schedule) => Ok(schedule),
        Err(_) => Err(AllocError),
    }
}

// The shortest schedule of the rules.
fn by_rules(alloc: Global, shop: &Shop) -> Result<Schedule, AllocError>
    ensures { IfOk result (IsActiveShopSchedule shop.now) }
{
    let most_work = by_rule(alloc, shop, ShopRule::MostWorkRemaining)?;
    let first_come = by_rule(alloc, shop, ShopRule::FirstCome)?;
    let shortest_time = by_rule(alloc, shop, ShopRule::ShortestTime)?;
    Ok(shorter(shorter(most_work, first_come), shortest_time))
}

impl Solvable for Shop {
    ghost use Rattle.plan_shop.specs.Shop.{problem_of};
    ghost use Rattle.plan_solve.specs.Solutions.{IsActiveShopSchedule};

    ghost problem = { λ s. problem_of s };

    ghost is_schedule = { λ s schedule. IsActiveShopSchedule s schedule };

    fn input(&self, alloc: Global) -> Result<Input, AllocError> {
        Input::of_shop(alloc, self, orders_of(alloc, self)?)
    }

    fn by_rules(&self, alloc: Global) -> Result<Schedule, AllocError> {
        by_rules(alloc, self)
    }

    fn simple_bound(&self, alloc: Global) -> Result<u64, AllocError> {
        shop_bound(alloc, self)
    }

    fn tightened(&self, alloc: Global, starts: &[u32]) -> Result<Option<Schedule>, AllocError> {
        Ok(Some(active_shop_schedule(alloc, self, starts)?))
    }
}

/// The shortest schedule of a job shop that a search with at most so many conflicts finds, and the
/// greatest lower bound of all makespans that it proves.
///
/// Refused with [`SolveFault::BadConflicts`] if the number of conflicts is not from 1 to
/// 1,000,000,000. Out of memory can replace any result.
pub fn solve_shop(alloc: Global, shop: &Shop, conflicts: u64) -> Result<Solved, SolveFault>
    ensures solved { IfOk result (spec.IsSolvedShop shop.now conflicts) }
    ensures refused { IfErr result (spec.RefusesSolving conflicts) }
    // A refusal takes no memory.
    ensures early { IsErrOf result SolveFault.NoMemory → spec.IsConflictLimit conflicts }
{
    solve_shop_watched(alloc, shop, conflicts, &mut Unwatched)
}

/// Does the same, reports its progress to a watcher, and stops if the watcher says that it is late.
pub fn solve_shop_watched<W: Watcher>(
    alloc: Global,
    shop: &Shop,
    conflicts: u64,
    watcher: &mut W,
) -> Result<Solved, SolveFault>
    ensures solved { IfOk result (spec.IsSolvedShop shop.now conflicts) }
    ensures refused { IfErr result (spec.RefusesSolving conflicts) }
    // A refusal takes no memory.
    ensures early { IsErrOf result SolveFault.NoMemory → spec.IsConflictLimit conflicts }
    // All that the watcher is told is true of the shop, whatever the search comes to.
    ensures told { HearsTruth (problem_of shop.now) conflicts
        (W.was_told watcher.old) (W.was_told watcher.new) }
{
    solve_shop_logged(alloc, shop, conflicts, watcher, &mut Unlogged)
}

/// Does the same, and writes what it proves to a log. With a log it also searches if the bounds
/// that need no search meet. No clause says what the log gets: a checker of logs checks it.
pub fn solve_shop_logged<W: Watcher, L: Log>(
    alloc: Global,
    shop: &Shop,
    conflicts: u64,
    watcher: &mut W,
    log: &mut L,
) -> Result<Solved, SolveFault>
    ensures solved { IfOk result (spec.IsSolvedShop shop.now conflicts) }
    ensures refused { IfErr result (spec.RefusesSolving conflicts) }
    // A refusal takes no memory.
    ensures early { IsErrOf result SolveFault.NoMemory → spec.IsConflictLimit conflicts }
    // All that the watcher is told is true of the shop, whatever the search comes to.
    ensures told { HearsTruth (problem_of shop.now) conflicts
        (W.was_told watcher.old) (W.was_told watcher.new) }
{
    check(conflicts)?;
    let searched = searched(alloc, shop, conflicts, watcher, log);
    watcher.end();
    Ok(searched?)
}

/// Returns the shortest schedule of the priority rules and a lower bound of all makespans that
/// needs no search.
pub fn rule_solution(alloc: Global, shop: &Shop) -> Result<Solved, AllocError>
    ensures { IfOk result (spec.IsKnown (problem_of shop.now) (IsActiveShopSchedule shop.now)) }
{
    unsearched(alloc, shop)
}

/// Returns a search of a job shop that starts from a schedule and hasn't begun. `is_logged` states
/// whether a log gets what the search proves.
pub fn shop_session(
    alloc: Global,
    shop: &Shop,
    known: &Solved,
    is_logged: bool,
) -> Result<Session, AllocError>
    ensures { IfOk result (IsSessionOf (problem_of shop.now)) }
{
    Session::new(alloc, shop, &known.schedule.starts, is_logged)
}

/// Continues a search of a job shop from a known schedule and lower bound, otherwise as
/// [`solve_shop_logged`]. [`Session::end_log`] ends the log.
pub fn solve_shop_from<W: Watcher, L: Log>(
    alloc: Global,
    shop: &Shop,
    known: Solved,
    session: &mut Session,
    conflicts: u64,
    watcher: &mut W,
    log: &mut L,
) -> Result<Solved, SolveFault>
    requires known { spec.IsKnown (problem_of shop.now) (IsActiveShopSchedule shop.now) known }
    requires session { IsSessionOf (problem_of shop.now) session.old }
    ensures session { IsSessionOf (problem_of shop.now) session.new }
    ensures solved { IfOk result (spec.IsSolvedShop shop.now conflicts) }
    ensures refused { IfErr result (spec.RefusesSolving conflicts) }
    // A refusal takes no memory.
    ensures early { IsErrOf result SolveFault.NoMemory → spec.IsConflictLimit conflicts }
    // It is no worse than what was known.
    ensures no_worse { IfOk result (spec.IsNoWorse known) }
    // All that the watcher is told is true of the shop, whatever the search comes to.
    ensures told { HearsTruth (problem_of shop.now) conflicts
        (W.was_told watcher.old) (W.was_told watcher.new) }
{
    check(conflicts)?;
    let searched = searched_from(alloc, shop, known, session, conflicts, watcher, log);
    watcher.end();
    Ok(searched?)
}
