//! The search of a job shop by moves.

ghost use Rattle.std.specs.Prelude.{IfOk};
ghost use Rattle.plan_shop.specs.Shop.{problem_of};
ghost use Rattle.plan_active.specs.Shifts.{IsActiveInTime};

use plan_local::LocalSearch;
use plan_sgs::Schedule;
use plan_shop::Shop;
use plan_solve::Watcher as SolveWatcher;
use std::alloc::{AllocError, Global};

/// After how much work the watcher is asked whether the search should end.
const WORK_BETWEEN: u64 = 200_000;

/// The work before all other searches for each pair of steps, and the greatest one: half a second
/// without a shorter schedule.
const FIRST_WORK_PER_PAIR: u64 = 80;

const MOST_FIRST_WORK: u64 = 20_000_000;

/// A local search, and how many of its turns in a row didn't find a shorter schedule.
#[derive(Drop)]
pub struct Moves {
    search: LocalSearch,
    steps: u64,
    jobs: u64,
    idle: u64,
}

impl Moves {
    /// Returns a search of a job shop that hasn't begun.
    pub fn new(alloc: Global, shop: &Shop) -> Result<Moves, AllocError> {
        Ok(Moves {
            search: LocalSearch::new(alloc, shop)?,
            steps: (shop.jobs() as u64).saturating_mul(shop.machines() as u64),
            jobs: shop.jobs() as u64,
            idle: 0,
        })
    }

    /// Returns the work before all other searches.
    pub fn first_work(&self) -> u64 {
        self.steps
            .saturating_mul(self.steps)
            .saturating_mul(FIRST_WORK_PER_PAIR)
            .min(MOST_FIRST_WORK)
    }

    /// Returns the work of a turn beside one of so many conflicts. It is less after turns that
    /// didn't find a shorter schedule.
    pub fn work_of_turn(&self, conflicts: u64) -> u64 {
        let work = conflicts
            .saturating_mul(self.steps)
            .saturating_mul(self.jobs);
        work / self.idle.max(1)
    }

    // Searches until so much work in a row finds no shorter schedule, or the watcher ends the
    // search.
    fn run<V: SolveWatcher>(&mut self, work: u64, watcher: &mut V) -> Result<(), AllocError> {
        let (mut left, mut least) = (work, self.search.makespan());
        for _slice in 0..u64::MAX {
            if left == 0 || self.search.is_over() || watcher.is_late() {
                break;
            }
            self.search.run(WORK_BETWEEN.min(left))?;
            left = left.saturating_sub(WORK_BETWEEN);
            if self.search.makespan() < least {
                least = self.search.makespan();
                left = work;
            }
        }
        Ok(())
    }

    /// Continues the search from a schedule and a lower bound, until so much work in a row finds no
    /// shorter schedule. Returns a schedule that is no longer.
    pub fn search<V: SolveWatcher>(
        &mut self,
        alloc: Global,
        shop: &Shop,
        known: Schedule,
        lower: u64,
        work: u64,
        watcher: &mut V,
    ) -> Result<Schedule, AllocError>
        requires { IsActiveInTime (problem_of shop.now) known }
        ensures { IfOk result (IsActiveInTime (problem_of shop.now)) }
    {
        let makespan = known.makespan;
        self.search.take(&known, lower);
        self.run(work, watcher)?;
        let schedule = self.search.shortened(alloc, shop, known)?;
        self.idle = if schedule.makespan < makespan {
            0
        } else {
            self.idle.saturating_add(1)
        };
        Ok(schedule)
    }
}
