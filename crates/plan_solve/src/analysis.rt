//! Learning from conflicts.

ghost use Rattle.std.specs.Prelude.{◌≡◌};

use crate::activity::Activity;
use crate::arrays::{is_marked, mark};
use crate::explanation::{Explainer, Why};
use crate::model::Model;
use crate::prover::Prover;
use crate::stop::{Cause, Clash};
use crate::trail::{NONE, Trail};
use plan_kernel::{Kernel, Literal};
use std::alloc::{AllocError, Global};

/// Which literals of the conflict began to hold at the last level.
#[derive(Drop)]
pub struct Analysis {
    explainer: Explainer,
    counted: Vec<bool>,
    count: u32,
    // for each half the literal that was looked at last, with the number of its conflict
    seen: Vec<u64>,
    // for each level the last conflict that had a literal of it
    met: Vec<u64>,
}

// The literal of the conflict at a half.
fn literal_of(kernel: &Kernel, half: u32) -> Literal {
    Literal {
        half,
        value: kernel.conflict(half),
    }
}

/// The greatest level at which a literal of the conflict began to hold, but for one half.
pub fn greatest_level(kernel: &Kernel, trail: &Trail, but: u32) -> u32 {
    let mut level = 0;
    for &half in kernel.touched() {
        if half != but {
            level = level.max(trail.level_of(literal_of(kernel, half)));
        }
    }
    level
}

impl Analysis {
    /// Nothing is counted, for so many halves.
    pub fn new(alloc: Global, halves: usize) -> Result<Analysis, AllocError> {
        Ok(Analysis {
            explainer: Explainer::new(alloc),
            counted: vec![in alloc; false; halves]?,
            count: 0,
            seen: vec![in alloc; 0; halves]?,
            met: vec![in alloc; 0; halves.saturating_add(1)]?,
        })
    }

    // Whether the literal of a half wasn't looked at yet in a conflict.
    fn is_new(&mut self, literal: Literal, conflict: u64) -> bool {
        let place = literal.half as usize;
        let seen = (conflict << 32) | literal.value as u64;
        if place >= self.seen.len() || self.seen[place] == seen {
            return false;
        }
        self.seen[place] = seen;
        true
    }

    // Counts the literal of a half, if it began to hold at an entry or later.
    fn count(&mut self, trail: &Trail, literal: Literal, start: u32) {
        let half = literal.half;
        if literal.value == 0 || is_marked(&self.counted, half) {
            return;
        }
        let entry = trail.entry_of(literal);
        if entry != NONE && start <= entry {
            mark(&mut self.counted, half, true);
            self.count = self.count.saturating_add(1);
        }
    }

    // Counts the literal of a half, if it is new and began to hold at an entry or later.
    fn count_half(&mut self, kernel: &Kernel, trail: &Trail, half: u32, conflict: u64) {
        let literal = literal_of(kernel, half);
        if self.is_new(literal, conflict) {
            self.count(trail, literal, trail.start_of(trail.level()));
        }
    }

    // Counts the literals of a quantity.
    fn count_quantity(&mut self, kernel: &Kernel, trail: &Trail, quantity: u32, conflict: u64) {
        let half = quantity.wrapping_mul(2);
        self.count_half(kernel, trail, half, conflict);
        self.count_half(kernel, trail, half | 1, conflict);
    }

    // Counts the literals of the conflict that began to hold at the last level.
    fn count_all(&mut self, kernel: &Kernel, trail: &Trail, conflict: u64) {
        for &half in kernel.touched() {
            self.count_half(kernel, trail, half, conflict);
        }
    }

    // Counts those that come from a kept clause.
    fn count_clause(&mut self, kernel: &Kernel, trail: &Trail, clause: u32, conflict: u64) {
        for &literal in kernel.clause(clause) {
            self.count_half(kernel, trail, literal.half ^ 1, conflict);
        }
    }

    // Counts those that come from an order.
    fn count_order(
        &mut self,
        model: &Model,
        kernel: &Kernel,
        trail: &Trail,
        place: u32,
        conflict: u64,
    ) {
        let order = model.order(place);
        self.count_quantity(kernel, trail, model.quantity(place), conflict);
        self.count_quantity(kernel, trail, order.first, conflict);
        self.count_quantity(kernel, trail, order.second, conflict);
    }

    // Counts those that come from the members of a window.
    fn count_members(&mut self, kernel: &Kernel, trail: &Trail, conflict: u64) {
        for place in 0..self.explainer.members().len() {
            let activity = self.explainer.member(place);
            self.count_quantity(kernel, trail, activity, conflict);
        }
    }

    // Counts those that come from a reason.
    fn count_reason(
        &mut self,
        model: &Model,
        kernel: &Kernel,
        trail: &Trail,
        why: Why,
        conflict: u64,
    ) {
        match why {
            Why::Kept(clause) => self.count_clause(kernel, trail, clause, conflict),
            Why::Arc(place, _) => {
                let link = model.link(place);
                self.count_quantity(kernel, trail, link.from, conflict);
                self.count_quantity(kernel, trail, link.to, conflict);
            }
            Why::End(activity, _) => {
                self.count_quantity(kernel, trail, activity, conflict);
                self.count_quantity(kernel, trail, model.end(), conflict);
            }
            Why::Before(order, _) | Why::After(order, _) => {
                self.count_order(model, kernel, trail, order, conflict);
            }
            Why::Energy(_, _, _) => self.count_members(kernel, trail, conflict),
        }
    }

    /// How many levels the literals of the conflict are of.
    pub fn spread(&mut self, kernel: &Kernel, trail: &Trail, conflict: u64) -> u32 {
        let mut levels: u32 = 0;
        for &half in kernel.touched() {
            let level = trail.level_of(literal_of(kernel, half)) as usize;
            if level < self.met.len() && self.met[level] != conflict {
                self.met[level] = conflict;
                levels = levels.saturating_add(1);
            }
        }
        levels
    }

    // No longer counts the literal of a half.
    fn uncount(&mut self, half: u32) {
        if (half as usize) < self.seen.len() {
            self.seen[half as usize] = 0;
        }
        if is_marked(&self.counted, half) {
            mark(&mut self.counted, half, false);
            self.count = self.count.saturating_sub(1);
        }
    }

    /// Makes the clause that is false the conflict of the kernel. Returns whether it could be done.
    pub fn begin(
        &mut self,
        model: &Model,
        trail: &Trail,
        prover: &mut Prover,
        clash: Clash,
    ) -> Result<bool, AllocError>
        ensures { prover.new.kernel.known.input ≡ prover.old.kernel.known.input }
    {
        match self.explainer.explain_clash(model, trail, clash)? {
            Some(why) => prover.begin(self.explainer.reason(why)),
            None => Ok(false),
        }
    }

    /// Makes the reason for which an entry holds the conflict of the kernel.
    pub fn begin_entry(
        &mut self,
        model: &Model,
        trail: &Trail,
        prover: &mut Prover,
        place: u32,
    ) -> Result<bool, AllocError>
        ensures { prover.new.kernel.known.input ≡ prover.old.kernel.known.input }
    {
        let Some(entry) = trail.entry(place) else {
            return Ok(false);
        };
        let literal = Literal {
            half: entry.half,
            value: entry.value,
        };
        match self
            .explainer
            .explain(model, trail, literal, entry.cause, place)?
        {
            Some(why) => prover.begin(self.explainer.reason(why)),
            None => Ok(false),
        }
    }

    // Replaces a literal of the conflict by what it follows from, and counts that. Returns whether
    // it could be done.
    fn resolve(
        &mut self,
        model: &Model,
        trail: &Trail,
        prover: &mut Prover,
        place: u32,
        conflict: u64,
    ) -> Result<bool, AllocError>
        ensures { prover.new.kernel.known.input ≡ prover.old.kernel.known.input }
    {
        let Some(entry) = trail.entry(place) else {
            return Ok(false);
        };
        let literal = literal_of(&prover.kernel, entry.half);
        self.uncount(entry.half);
        let why = self
            .explainer
            .explain(model, trail, literal, entry.cause, place)?;
        let Some(why) = why else {
            return Ok(false);
        };
        if !prover.resolve(entry.half, self.explainer.reason(why))? {
            return Ok(false);
        }
        self.count_reason(model, &prover.kernel, trail, why, conflict);
        Ok(true)
    }

    // Whether the conflict has a literal that holds from an entry on, and not before.
    fn is_met(&self, kernel: &Kernel, trail: &Trail, place: u32) -> bool {
        match trail.entry(place) {
            Some(entry) => entry.old < kernel.conflict(entry.half),
            None => false,
        }
    }

    /// Resolves the conflict until one literal of the last level is left. Returns its half, or none
    /// if that could not be done.
    pub fn reduce(
        &mut self,
        model: &Model,
        trail: &Trail,
        prover: &mut Prover,
        activity: &mut Activity,
        used: &mut Vec<u64>,
        conflict: u64,
    ) -> Result<Option<u32>, AllocError>
        ensures { prover.new.kernel.known.input ≡ prover.old.kernel.known.input }
    {
        self.count = 0;
        self.count_all(&prover.kernel, trail, conflict);
        for place in (0..trail.len()).rev() {
            if !self.is_met(&prover.kernel, trail, place) {
                continue;
            }
            let Some(entry) = trail.entry(place) else {
                break;
            };
            if self.count <= 1 {
                self.uncount(entry.half);
                return Ok(Some(entry.half));
            }
            activity.bump(literal_of(&prover.kernel, entry.half))?;
            note_use(entry.cause, used, conflict);
            if !self.resolve(model, trail, prover, place, conflict)? {
                break;
            }
        }
        Ok(None)
    }
}

// A clause is used at a conflict.
fn note_use(cause: Cause, used: &mut Vec<u64>, conflict: u64) {
    if let Cause::Kept(clause) = cause {
        if (clause as usize) < used.len() {
            used[clause as usize] = conflict;
        }
    }
}
