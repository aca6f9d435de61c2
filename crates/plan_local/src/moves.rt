//! Moves of a step within a block of a critical path.

use crate::dates::Dates;
use crate::lists::{at, put};
use crate::rows::Rows;
use crate::steps::Steps;

/// A move of the first one of some steps of a path behind the last one, or of the last one before
/// the first one.
#[derive(Clone, Copy, Drop)]
pub struct Move {
    /// The places in the path.
    pub first: u32,
    pub last: u32,
    /// Whether the first one moves.
    pub is_first: bool,
}

impl Move {
    /// Returns the number of the other steps.
    pub fn others(&self) -> u32 {
        self.last.saturating_sub(self.first)
    }

    /// Returns the step that moves.
    pub fn step(&self, path: &[u32]) -> u32 {
        at(path, if self.is_first { self.first } else { self.last })
    }

    /// Returns one of the other steps.
    pub fn other(&self, path: &[u32], index: u32) -> u32 {
        let from = if self.is_first {
            self.first.wrapping_add(1)
        } else {
            self.first
        };
        at(path, from.wrapping_add(index))
    }

    // Returns the step at a place of the new order.
    fn moved(&self, path: &[u32], place: u32) -> u32 {
        if self.is_first {
            if place < self.others() {
                self.other(path, place)
            } else {
                self.step(path)
            }
        } else if place == 0 {
            self.step(path)
        } else {
            self.other(path, place - 1)
        }
    }

    /// Returns whether the move makes no cycle for sure (Balas and Vazacopoulos, "Guided local
    /// search with shifting bottleneck for job shop scheduling", 1998): no path leads from the job
    /// of the step that moves to the steps that it passes.
    pub fn is_allowed(&self, steps: &Steps, dates: &Dates, path: &[u32]) -> bool {
        let (first, last) = (at(path, self.first), at(path, self.last));
        if self.is_first {
            at(&dates.tails, last) >= at(&dates.tails, at(&steps.behind, first))
        } else {
            at(&dates.ends, first) >= at(&dates.ends, at(&steps.before, last))
        }
    }

    // Works out the ends of the steps in their new order.
    fn set_ends(
        &self,
        steps: &Steps,
        rows: &Rows,
        dates: &Dates,
        path: &[u32],
        ends: &mut Vec<u32>,
    ) {
        let mut end = at(&dates.ends, at(&rows.before, at(path, self.first)));
        for place in 0..self.others().saturating_add(1) {
            let step = self.moved(path, place);
            end = end.max(at(&dates.ends, at(&steps.before, step)));
            end = end.wrapping_add(steps.time(step));
            put(ends, place, end);
        }
    }

    /// Returns an estimate of the makespan after the move: the length of a longest path through one
    /// of its steps, if the dates of all other steps stay.
    pub fn estimate(
        &self,
        steps: &Steps,
        rows: &Rows,
        dates: &Dates,
        path: &[u32],
        ends: &mut Vec<u32>,
    ) -> u32 {
        self.set_ends(steps, rows, dates, path, ends);
        let mut tail = at(&dates.tails, at(&rows.behind, at(path, self.last)));
        let (mut place, mut longest) = (self.others(), 0);
        for _ in 0..self.others().saturating_add(1) {
            let step = self.moved(path, place);
            tail = tail.max(at(&dates.tails, at(&steps.behind, step)));
            longest = longest.max(at(ends, place).wrapping_add(tail));
            tail = tail.wrapping_add(steps.time(step));
            place = place.wrapping_sub(1);
        }
        longest
    }

    /// Makes the move.
    pub fn make(&self, rows: &mut Rows, path: &[u32]) {
        let (first, last) = (at(path, self.first), at(path, self.last));
        if self.is_first {
            rows.move_behind(first, last);
        } else {
            rows.move_before(last, first);
        }
    }
}
