//! The local search.

ghost use Rattle.std.specs.Prelude.{◌≤◌, IfOk};
ghost use Rattle.plan_shop.specs.Shop.{problem_of};
ghost use Rattle.plan_active.specs.Shifts.{IsActiveInTime};

use crate::choice::Choice;
use crate::dates::Dates;
use crate::draws::Draws;
use crate::lists::put;
use crate::moves::Move;
use crate::path::{end_of_block, find_path};
use crate::rows::Rows;
use crate::steps::Steps;
use crate::tabu::Tabu;
use plan_active::active_shop_schedule;
use plan_sgs::Schedule;
use plan_shop::Shop;
use std::alloc::{AllocError, Global};

/// After how many moves without a shorter schedule the search begins again.
const PATIENCE: u32 = 12_500;

/// The least number of random moves after which it does.
const LEAST_SHAKES: u32 = 5;

/// A tabu search for short schedules of a job shop (Glover 1989; Nowicki and Smutnicki 1996). It
/// moves steps within the blocks of a critical path (Balas and Vazacopoulos 1998). It can be
/// continued, and each run on the same shop finds the same schedules.
#[derive(Drop)]
pub struct LocalSearch {
    steps: Steps,
    rows: Rows,
    dates: Dates,
    tabu: Tabu,
    draws: Draws,
    path: Vec<u32>,
    // the ends of the steps of a move
    ends: Vec<u32>,
    choice: Choice,
    // the starts of the best schedule, and its makespan
    best: Vec<u32>,
    least: u32,
    // the least makespan since the search began again, and how many moves ago it was found
    near: u32,
    idle: u32,
    // how often it began again, and how many random moves are left
    restarts: u32,
    shakes: u32,
    target: u64,
    work: u64,
    is_over: bool,
}

impl LocalSearch {
    /// Returns a search without a schedule.
    pub fn new(alloc: Global, shop: &Shop) -> Result<LocalSearch, AllocError> {
        let steps = Steps::of_shop(alloc, shop)?;
        let count = steps.count as usize;
        Ok(LocalSearch {
            rows: Rows::new(alloc, &steps)?,
            dates: Dates::new(alloc, &steps)?,
            tabu: Tabu::new(alloc, &steps)?,
            draws: Draws::new(),
            path: Vec::new(alloc),
            ends: vec![in alloc; 0; count]?,
            choice: Choice::new(),
            best: vec![in alloc; 0; count]?,
            least: u32::MAX,
            near: u32::MAX,
            idle: 0,
            restarts: 0,
            shakes: 0,
            target: 0,
            work: 0,
            is_over: true,
            steps,
        })
    }

    /// Returns whether nothing is left to search for: the makespan is the lower bound, or no step
    /// of a critical path can move.
    pub fn is_over(&self) -> bool {
        self.is_over
    }

    /// Returns the makespan of the best schedule.
    pub fn makespan(&self) -> u32 {
        self.least
    }

    // Goes back to the best schedule.
    fn go_back(&mut self) {
        self.rows.order_by(&self.steps, &self.best);
        if !self.dates.update(&self.steps, &self.rows) {
            self.is_over = true;
        }
        self.tabu.clear();
        self.near = self.dates.makespan;
        self.idle = 0;
        self.shakes = 0;
    }

    /// Takes a schedule and a lower bound. The search continues from the schedule if it is shorter
    /// than all that it knows.
    pub fn take(&mut self, schedule: &Schedule, lower: u64) {
        self.target = lower;
        if schedule.makespan < self.least as u64 {
            let mut step = 0u32;
            for &start in schedule.starts.iter() {
                put(&mut self.best, step, (start & 0xffff_ffff) as u32);
                step = step.wrapping_add(1);
            }
            self.least = (schedule.makespan & 0xffff_ffff) as u32;
            self.is_over = false;
            self.go_back();
        }
        self.is_over = self.is_over || self.least as u64 <= lower;
    }

    // Looks at a move.
    fn consider(&mut self, first: u32, last: u32, is_first: bool) {
        let candidate = Move {
            first,
            last,
            is_first,
        };
        if !candidate.is_allowed(&self.steps, &self.dates, &self.path) {
            return;
        }
        let (steps, rows, dates) = (&self.steps, &self.rows, &self.dates);
        let estimate = candidate.estimate(steps, rows, dates, &self.path, &mut self.ends);
        self.work = self
            .work
            .saturating_add(candidate.others() as u64)
            .saturating_add(1);
        self.choice.add(candidate, &mut self.draws);
        if estimate < self.near || !self.tabu.forbids(&self.steps, &self.path, candidate) {
            self.choice
                .add_estimate(candidate, estimate, &mut self.draws);
        }
    }

    // Looks at the moves to and from the start of a block.
    fn consider_start(&mut self, first: u32, last: u32) {
        for place in first..last {
            self.consider(first, place.saturating_add(1), false);
            if place > first {
                self.consider(first, place, true);
            }
        }
    }

    // Looks at the moves to and from the end of a block.
    fn consider_end(&mut self, first: u32, last: u32) {
        for place in first..last {
            self.consider(place, last, true);
            if place > first {
                self.consider(place, last, false);
            }
        }
    }

    // Looks at the moves within a block. Those to and from the start of the first block, or the end
    // of the last one, can't make the schedule shorter.
    fn consider_block(&mut self, first: u32, last: u32) {
        let is_last = last as usize + 1 >= self.path.len();
        if !is_last {
            self.consider_end(first, last);
        }
        let is_pair = last.saturating_sub(first) == 1;
        if first > 0 && (is_last || !is_pair) {
            self.consider_start(first, last);
        }
    }

    // Looks at the moves within all blocks of the path.
    fn consider_all(&mut self) {
        self.choice = Choice::new();
        let mut first = 0u32;
        for _ in 0..self.path.len() {
            if first as usize >= self.path.len() {
                break;
            }
            let last = end_of_block(&self.rows, &self.path, first);
            self.consider_block(first, last);
            first = last.saturating_add(1);
        }
    }

    // Begins again with random moves from the best schedule.
    fn begin_again(&mut self) {
        self.go_back();
        self.restarts = self.restarts.wrapping_add(1);
        let more = self.draws.below(self.restarts % 8 * 5 + 1);
        self.shakes = LEAST_SHAKES.saturating_add(more);
    }

    // Takes notice of the schedule after a move.
    fn note(&mut self) {
        let makespan = self.dates.makespan;
        if makespan < self.least {
            self.least = makespan;
            self.dates.write_starts(&self.steps, &mut self.best);
            self.is_over = makespan as u64 <= self.target;
        }
        self.idle = self.idle.saturating_add(1);
        if self.shakes > 0 || makespan < self.near {
            self.near = makespan;
            self.idle = 0;
        }
        self.shakes = self.shakes.saturating_sub(1);
        if self.idle > PATIENCE {
            self.begin_again();
        }
    }

    // Makes a move.
    fn make(&mut self, made: Move) {
        self.tabu
            .forbid(&self.steps, &self.path, made, &mut self.draws);
        made.make(&mut self.rows, &self.path);
        if self.dates.update(&self.steps, &self.rows) {
            self.note();
        } else {
            self.begin_again();
        }
        self.work = self.work.saturating_add(self.steps.count as u64);
    }

    // Makes the next move.
    fn advance(&mut self) -> Result<(), AllocError> {
        self.tabu.advance();
        let (steps, rows, dates) = (&self.steps, &self.rows, &self.dates);
        find_path(steps, rows, dates, &mut self.draws, &mut self.path)?;
        self.consider_all();
        let chosen = if self.shakes > 0 {
            self.choice.any()
        } else {
            self.choice.best()
        };
        match chosen {
            Some(made) => self.make(made),
            None => self.is_over = true,
        }
        Ok(())
    }

    /// Searches until so much work is done, or nothing is left to search for. A unit of work is a
    /// step that is visited.
    pub fn run(&mut self, work: u64) -> Result<(), AllocError> {
        self.work = 0;
        for _ in 0..work {
            if self.is_over || self.work >= work {
                break;
            }
            self.advance()?;
        }
        Ok(())
    }

    /// Returns an active schedule of the best starts if it is shorter than a known one, else that
    /// one.
    pub fn shortened(
        &self,
        alloc: Global,
        shop: &Shop,
        known: Schedule,
    ) -> Result<Schedule, AllocError>
        requires { IsActiveInTime (problem_of shop.now) known }
        ensures active { IfOk result (IsActiveInTime (problem_of shop.now)) }
        ensures no_longer { IfOk result (λ schedule. schedule.makespan ≤ known.makespan) }
    {
        if self.least as u64 >= known.makespan {
            return Ok(known);
        }
        let found = active_shop_schedule(alloc, shop, &self.best)?;
        if found.makespan < known.makespan {
            Ok(found)
        } else {
            Ok(known)
        }
    }
}
