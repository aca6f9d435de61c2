//! The search for shorter schedules and greater lower bounds.

ghost use Rattle.std.specs.Prelude.{◌≡◌, ◌≤◌, IfOk};

use crate::activity::Activity;
use crate::analysis::{Analysis, greatest_level};
use crate::arrays::at;
use crate::literals::{at_most, negated};
use crate::model::Model;
use crate::propagation::State;
use crate::prover::Prover;
use crate::reduction::Clauses;
use crate::restarts::{is_raising, patience};
use crate::stop::{Cause, Clash, Stop};
use crate::trail::{NONE, Trail};
use crate::watches::literal_at;
use plan_kernel::{Kernel, LIMIT, Lesson, Literal};
use std::alloc::{AllocError, Global};

/// A search. Its parts beside the kernel decide how long it takes, and nothing else.
#[derive(Drop)]
pub struct Search {
    pub prover: Prover,
    pub model: Model,
    pub state: State,
    pub clauses: Clauses,
    analysis: Analysis,
    activity: Activity,
    // whether the next decision at level 0 is to end at the lower bound, and a bound that is known
    // elsewhere
    is_raising: bool,
    known: u32,
    // how often the search began again, and how many conflicts it may have before it does so next
    restarts: u32,
    left: u64,
}

// Takes all facts of a kernel over. Returns whether they agree.
fn take_facts(kernel: &Kernel, state: &mut State) -> Result<bool, AllocError> {
    for half in 0..kernel.halves() {
        let half = (half & 0xffff_ffff) as u32;
        let value = kernel.fact(half);
        if !state.trail.hold(Literal { half, value }, Cause::Fact)? {
            return Ok(false);
        }
    }
    Ok(true)
}

// Makes all entries of level 0 facts.
fn settle(
    alloc: Global,
    analysis: &mut Analysis,
    model: &Model,
    trail: &Trail,
    prover: &mut Prover,
) -> Result<(), AllocError>
    ensures { prover.new.kernel.known.input ≡ prover.old.kernel.known.input }
{
    for place in 0..trail.len() {
        if analysis.begin_entry(model, trail, prover, place)? {
            let _ = prover.keep(alloc)?;
        }
    }
    Ok(())
}

// Makes the literals of the conflict weigh more.
fn bump(kernel: &Kernel, activity: &mut Activity) -> Result<(), AllocError> {
    for &half in kernel.touched() {
        let value = kernel.conflict(half);
        activity.bump(Literal { half, value })?;
    }
    activity.decay();
    Ok(())
}

// The places in a clause of the literal of a half, and of one that became false at a level.
fn places_in(clause: &[Literal], trail: &Trail, half: u32, level: u32) -> (u32, u32) {
    let (mut first, mut second, mut place) = (0, 0, 0u32);
    for &literal in clause {
        if literal.half == half {
            first = place;
        } else if trail.level_of(negated(literal)) == level {
            second = place;
        }
        place = place.wrapping_add(1);
    }
    (first, second)
}

impl Search {
    /// A search over what a prover knows.
    pub fn new(alloc: Global, prover: Prover) -> Result<Search, AllocError>
        ensures { IfOk result (λ search. search.prover ≡ prover) }
    {
        let kernel = &prover.kernel;
        let model = Model::new(alloc, kernel.input())?;
        let (halves, horizon) = (kernel.halves(), kernel.upper());
        let state = State::new(alloc, &model, halves, horizon)?;
        let activity = Activity::new(alloc, &model, horizon)?;
        let analysis = Analysis::new(alloc, halves)?;
        Ok(Search {
            prover,
            model,
            state,
            clauses: Clauses::new(alloc),
            analysis,
            activity,
            is_raising: false,
            known: 0,
            restarts: 0,
            left: 0,
        })
    }

    // Takes all facts over. Returns whether they agree.
    fn take_facts(&mut self) -> Result<bool, AllocError>
        ensures { self.new.prover ≡ self.old.prover }
    {
        take_facts(&self.prover.kernel, &mut self.state)
    }

    /// Takes back all decisions above a level.
    pub fn go_back(&mut self, level: u32) -> Result<(), AllocError>
        ensures { self.new.prover ≡ self.old.prover }
    {
        self.activity.close(level)?;
        self.state.go_back(&self.model, level)
    }

    // Propagates all bounds; at the first levels of a search for lower bounds also by windows.
    // Returns `false` if the clock is due: the next call continues.
    fn propagate(&mut self, alloc: Global) -> Result<bool, Stop>
        ensures { self.new.prover ≡ self.old.prover }
    {
        let kernel = &self.prover.kernel;
        if !self.state.propagate(alloc, &self.model, kernel)? {
            return Ok(false);
        }
        let level = self.state.trail.level();
        if level == 0 || level == 1 && self.is_raising {
            let horizon = self.prover.kernel.upper();
            self.state.check_windows(alloc, &self.model, horizon)?;
        }
        Ok(true)
    }

    // Propagates all bounds without an interruption.
    fn propagate_whole(&mut self, alloc: Global) -> Result<(), Stop>
        ensures { self.new.prover ≡ self.old.prover }
    {
        self.state.trail.work.hold(true);
        let outcome = self.propagate(alloc);
        self.state.trail.work.hold(false);
        match outcome {
            Ok(_) => Ok(()),
            Err(stop) => Err(stop),
        }
    }

    /// Starts the count of work again: the watcher was asked.
    pub fn restart_work(&mut self)
        ensures { self.new.prover ≡ self.old.prover }
    {
        self.state.trail.work.restart();
    }

    // Keeps what holds at level 0 as facts.
    fn settle(&mut self, alloc: Global) -> Result<(), AllocError>
        ensures { self.new.prover.kernel.known.input ≡ self.old.prover.kernel.known.input }
    {
        let (model, trail) = (&self.model, &self.state.trail);
        settle(alloc, &mut self.analysis, model, trail, &mut self.prover)
    }

    // Learns from a clause that is false at level 0 that there is nothing to search for any more.
    fn refute(&mut self, alloc: Global, clash: Clash) -> Result<(), AllocError>
        ensures { self.new.prover.kernel.known.input ≡ self.old.prover.kernel.known.input }
    {
        self.settle(alloc)?;
        let trail = &self.state.trail;
        if self
            .analysis
            .begin(&self.model, trail, &mut self.prover, clash)?
        {
            let _ = self.prover.keep(alloc)?;
        }
        Ok(())
    }

    // Goes on from a fact that was learned.
    fn take_fact(&mut self, half: u32) -> Result<bool, AllocError>
        ensures { self.new.prover ≡ self.old.prover }
    {
        self.go_back(0)?;
        let value = self.prover.kernel.fact(half);
        self.state.trail.hold(Literal { half, value }, Cause::Fact)
    }

    // Goes on from a clause that was learned: its one literal that isn't false holds.
    fn take_clause(
        &mut self,
        clause: u32,
        half: u32,
        back: u32,
        conflict: u64,
        spread: u32,
    ) -> Result<bool, AllocError>
        ensures { self.new.prover ≡ self.old.prover }
    {
        self.clauses.add(clause, spread, conflict)?;
        let literals = self.prover.kernel.clause(clause);
        let (first, second) = places_in(literals, &self.state.trail, half ^ 1, back);
        let asserted = literal_at(literals, first);
        self.activity.close(back)?;
        self.state.go_back(&self.model, back)?;
        self.state
            .watches
            .add(&self.prover.kernel, clause, first, second)?;
        self.state.trail.hold(asserted, Cause::Kept(clause))
    }

    // Learns from the conflict, of which one half began to hold at the last level.
    fn learn_half(&mut self, alloc: Global, half: u32, conflict: u64) -> Result<bool, AllocError>
        ensures { self.new.prover.kernel.known.input ≡ self.old.prover.kernel.known.input }
    {
        bump(&self.prover.kernel, &mut self.activity)?;
        let back = greatest_level(&self.prover.kernel, &self.state.trail, half);
        let spread = self
            .analysis
            .spread(&self.prover.kernel, &self.state.trail, conflict);
        match self.prover.keep(alloc)? {
            Some(Lesson::Refuted) => Ok(false),
            Some(Lesson::Fact(half)) => self.take_fact(half),
            Some(Lesson::Clause(clause)) => self.take_clause(clause, half, back, conflict, spread),
            None => {
                self.go_back(0)?;
                Ok(true)
            }
        }
    }

    /// Learns from a clause that is false, and begins again if it is time to. Returns whether there
    /// is something left to search for.
    pub fn learn(&mut self, alloc: Global, clash: Clash, conflict: u64) -> Result<bool, AllocError>
        ensures { self.new.prover.kernel.known.input ≡ self.old.prover.kernel.known.input }
    {
        self.left = self.left.saturating_sub(1);
        if !self.learn_from(alloc, clash, conflict)? {
            return Ok(false);
        }
        if self.left == 0 {
            return self.begin_again(alloc, conflict);
        }
        Ok(true)
    }

    // Learns from a clause that is false.
    fn learn_from(&mut self, alloc: Global, clash: Clash, conflict: u64) -> Result<bool, AllocError>
        ensures { self.new.prover.kernel.known.input ≡ self.old.prover.kernel.known.input }
    {
        if self.state.trail.level() == 0 {
            self.refute(alloc, clash)?;
            return Ok(false);
        }
        let trail = &self.state.trail;
        if !self
            .analysis
            .begin(&self.model, trail, &mut self.prover, clash)?
        {
            return Ok(false);
        }
        let level = greatest_level(&self.prover.kernel, &self.state.trail, NONE);
        if level == 0 {
            let _ = self.prover.keep(alloc)?;
            return Ok(false);
        }
        self.go_back(level)?;
        let reduced = self.analysis.reduce(
            &self.model,
            &self.state.trail,
            &mut self.prover,
            &mut self.activity,
            &mut self.clauses.used,
            conflict,
        )?;
        match reduced {
            Some(half) => self.learn_half(alloc, half, conflict),
            None => Ok(false),
        }
    }

    // Decides.
    fn decide(&mut self, literal: Literal) -> Result<(), AllocError>
        ensures { self.new.prover ≡ self.old.prover }
    {
        self.activity.open()?;
        self.state.trail.decide(literal)
    }

    // Whether a literal that a quantity is at least a value holds in the best schedule.
    fn is_in_best(&self, literal: Literal) -> bool {
        let Some(best) = self.prover.kernel.best() else {
            return false;
        };
        let quantity = literal.half / 2;
        if quantity < self.model.count {
            return at(best, quantity) >= literal.value;
        }
        if quantity == self.model.end() {
            return self.prover.kernel.upper() >= literal.value;
        }
        let order = self.model.order(self.model.order_of(quantity));
        let end = at(best, order.first).saturating_add(self.model.duration(order.first));
        end <= at(best, order.second)
    }

    // The open activity that can start first.
    fn first_open(&self) -> Option<u32> {
        let (mut found, mut least) = (None, u32::MAX);
        for activity in 0..self.model.count {
            let earliest = self.state.trail.earliest(activity);
            if earliest < self.state.trail.latest(activity) && earliest < least {
                found = Some(activity);
                least = earliest;
            }
        }
        found
    }

    // The decision to end at the lower bound.
    fn raising(&self) -> Option<Literal> {
        let end = self.model.end();
        let bound = self.state.trail.earliest(end).max(self.known);
        let literal = at_most(end, bound, 0);
        if self.is_raising && !self.state.trail.is_true(literal) {
            Some(literal)
        } else {
            None
        }
    }

    // Decides. Returns whether an activity was open.
    fn branch(&mut self, alloc: Global) -> Result<bool, AllocError>
        ensures { self.new.prover.kernel.known.input ≡ self.old.prover.kernel.known.input }
    {
        if self.state.trail.level() == 0 {
            self.settle(alloc)?;
            self.state.trail.forget();
            if let Some(literal) = self.raising() {
                self.decide(literal)?;
                return Ok(true);
            }
        }
        if let Some(literal) = self.activity.next(&self.state.trail)? {
            let is_kept = self.is_in_best(literal);
            self.decide(if is_kept { literal } else { negated(literal) })?;
            return Ok(true);
        }
        let Some(activity) = self.first_open() else {
            return Ok(false);
        };
        let earliest = self.state.trail.earliest(activity);
        self.decide(at_most(activity, earliest, 0))?;
        Ok(true)
    }

    // Hands the starts of all activities in. Returns whether there is something left to search for.
    fn improve(&mut self, alloc: Global) -> Result<bool, AllocError>
        ensures { self.new.prover.kernel.known.input ≡ self.old.prover.kernel.known.input }
    {
        let mut starts = Vec::with_capacity(alloc, self.model.count as usize)?;
        for activity in 0..self.model.count {
            starts.push(self.state.trail.earliest(activity))?;
        }
        self.go_back(0)?;
        Ok(self.prover.lower(starts)? && self.take_facts()?)
    }

    /// Whether the use of resources can be counted.
    pub fn can_search(&self) -> bool {
        self.state.is_whole()
    }

    // Begins again, if it is time to. Returns whether there is something left to search for.
    fn begin_again(&mut self, alloc: Global, conflict: u64) -> Result<bool, AllocError>
        ensures { self.new.prover.kernel.known.input ≡ self.old.prover.kernel.known.input }
    {
        self.go_back(0)?;
        self.is_raising = is_raising(self.restarts);
        self.left = patience(self.restarts);
        self.restarts = self.restarts.wrapping_add(1);
        if self.clauses.is_full(&self.prover.kernel) {
            return self.reduce(alloc, conflict);
        }
        Ok(true)
    }

    /// Propagates and decides until a clause is false or the clock is due, for so many decisions at
    /// most.
    pub fn advance(&mut self, alloc: Global, decisions: u32) -> Result<Advance, AllocError>
        ensures { self.new.prover.kernel.known.input ≡ self.old.prover.kernel.known.input }
    {
        for _ in 0..decisions {
            match self.propagate(alloc) {
                Err(Stop::NoMemory) => return Err(AllocError),
                Err(Stop::Clash(clash)) => return Ok(Advance::Clash(clash)),
                Ok(false) => return Ok(Advance::Open),
                Ok(true) => {}
            }
            if !self.branch(alloc)? && !self.improve(alloc)? {
                return Ok(Advance::Done);
            }
        }
        Ok(Advance::Open)
    }

    /// Aims at bounds above one that is known elsewhere.
    pub fn aim_above(&mut self, bound: u64)
        ensures { self.new.prover ≡ self.old.prover }
    {
        self.known = bound.min(LIMIT as u64) as u32;
    }

    /// Takes the starts of a schedule, if they are feasible and shorter than the best ones. Returns
    /// whether there is something left to search for.
    pub fn take(&mut self, starts: Vec<u32>) -> Result<bool, AllocError>
        ensures { self.new.prover.kernel.known.input ≡ self.old.prover.kernel.known.input }
    {
        self.go_back(0)?;
        Ok(!self.prover.lower(starts)? || self.take_facts()?)
    }

    /// Begins. Returns whether there is something to search for.
    pub fn begin(&mut self, alloc: Global) -> Result<bool, AllocError>
        ensures { self.new.prover.kernel.known.input ≡ self.old.prover.kernel.known.input }
    {
        if !self.take_facts()? {
            return Ok(false);
        }
        match self.state.propagate_all(&self.model) {
            Ok(()) => self.begin_again(alloc, 0),
            Err(Stop::NoMemory) => Err(AllocError),
            Err(Stop::Clash(clash)) => {
                self.refute(alloc, clash)?;
                Ok(false)
            }
        }
    }

    // Drops clauses that weren't of use, after all decisions were taken back. Returns whether there
    // is something left to search for.
    fn reduce(&mut self, alloc: Global, conflict: u64) -> Result<bool, AllocError>
        ensures { self.new.prover.kernel.known.input ≡ self.old.prover.kernel.known.input }
    {
        match self.propagate_whole(alloc) {
            Err(Stop::NoMemory) => return Err(AllocError),
            Err(Stop::Clash(clash)) => {
                self.refute(alloc, clash)?;
                return Ok(false);
            }
            Ok(()) => {}
        }
        self.settle(alloc)?;
        self.state.trail.forget();
        self.clauses.reduce(&mut self.prover, conflict)?;
        self.clauses.watch_all(
            &self.prover.kernel,
            &self.state.trail,
            &mut self.state.watches,
        )?;
        Ok(true)
    }
}

/// How far a search has come.
#[derive(Drop)]
pub enum Advance {
    /// Nothing is left to search for.
    Done,
    /// A clause is false.
    Clash(Clash),
    /// Neither so far.
    Open,
}
