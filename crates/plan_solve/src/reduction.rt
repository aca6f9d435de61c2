//! Which kept clauses are dropped.

ghost use Rattle.std.specs.Prelude.{◌≡◌};

use crate::prover::Prover;
use crate::trail::Trail;
use crate::watches::Watches;
use plan_kernel::Kernel;
use std::alloc::{AllocError, Global};

/// How many clauses are kept at first, and how many more after each reduction.
const FIRST_CLAUSES: u64 = 4_000;

const MORE_CLAUSES: u64 = 500;

/// Clauses of at most so many levels stay.
const FEW_LEVELS: u32 = 2;

/// Clauses that were used in so many of the last conflicts stay.
const LATE: u64 = 100;

/// The most levels that are told apart.
const LEVELS: usize = 64;

/// For each kept clause how many levels its literals were of when it was learned (Audemard and
/// Simon, "Predicting learnt clauses quality in modern SAT solvers", 2009), and the conflict that
/// used it last.
#[derive(Drop)]
pub struct Clauses {
    levels: Vec<u32>,
    pub used: Vec<u64>,
    count: u64,
    most: u64,
}

impl Clauses {
    /// No clauses.
    pub fn new(alloc: Global) -> Clauses {
        Clauses {
            levels: Vec::new(alloc),
            used: Vec::new(alloc),
            count: 0,
            most: FIRST_CLAUSES,
        }
    }

    /// Adds a clause.
    pub fn add(&mut self, clause: u32, levels: u32, conflict: u64) -> Result<(), AllocError> {
        let place = clause as usize;
        for _ in self.levels.len()..place.saturating_add(1) {
            self.levels.push(0)?;
        }
        for _ in self.used.len()..place.saturating_add(1) {
            self.used.push(0)?;
        }
        if place < self.levels.len() && place < self.used.len() {
            self.levels[place] = levels;
            self.used[place] = conflict;
        }
        self.count = self.count.saturating_add(1);
        Ok(())
    }

    /// Whether there are so many clauses that some should be dropped.
    pub fn is_full(&self, kernel: &Kernel) -> bool {
        self.count > self.most || kernel.literals() > plan_kernel::MOST_LITERALS / 2
    }

    // The number of levels from which on clauses are dropped: about half of them have fewer.
    fn limit(&self, kernel: &Kernel) -> u32 {
        let mut counts = [0u64; LEVELS];
        for (place, &levels) in self.levels.iter().enumerate() {
            let class = (levels as usize).min(LEVELS - 1);
            if !kernel.clause((place & 0xffff_ffff) as u32).is_empty() {
                counts[class] = counts[class].saturating_add(1);
            }
        }
        let mut below: u64 = 0;
        for (levels, count) in counts.iter().enumerate() {
            below = below.saturating_add(*count);
            if below > self.count / 2 {
                return (levels & 0xffff_ffff) as u32;
            }
        }
        0
    }

    // Whether a clause stays.
    fn stays(&self, place: usize, limit: u32, conflict: u64) -> bool {
        if place >= self.levels.len() || place >= self.used.len() {
            return false;
        }
        let levels = self.levels[place];
        levels <= FEW_LEVELS || levels < limit || self.used[place].saturating_add(LATE) > conflict
    }

    /// Drops about half of the clauses: those of many levels that weren't used of late.
    pub fn reduce(&mut self, prover: &mut Prover, conflict: u64) -> Result<(), AllocError>
        ensures { prover.new.kernel.known.input ≡ prover.old.kernel.known.input }
    {
        let limit = self.limit(&prover.kernel);
        for place in 0..self.levels.len() {
            let clause = (place & 0xffff_ffff) as u32;
            if !prover.kernel.clause(clause).is_empty() && !self.stays(place, limit, conflict) {
                prover.remove(clause)?;
                self.count = self.count.saturating_sub(1);
            }
        }
        self.most = self.most.saturating_add(MORE_CLAUSES);
        Ok(())
    }

    /// Watches two literals of each clause that aren't false.
    pub fn watch_all(
        &self,
        kernel: &Kernel,
        trail: &Trail,
        watches: &mut Watches,
    ) -> Result<(), AllocError> {
        watches.clear();
        for place in 0..self.levels.len() {
            let clause = (place & 0xffff_ffff) as u32;
            let (mut first, mut second) = (None, None);
            for (place, &literal) in kernel.clause(clause).iter().enumerate() {
                if !trail.is_false(literal) {
                    let place = (place & 0xffff_ffff) as u32;
                    if first.is_none() {
                        first = Some(place);
                    } else if second.is_none() {
                        second = Some(place);
                    }
                }
            }
            if let (Some(first), Some(second)) = (first, second) {
                watches.add(kernel, clause, first, second)?;
            }
        }
        Ok(())
    }
}
