//! Orders of two steps that a move can't restore for some rounds.

use crate::draws::Draws;
use crate::lists::{at, put};
use crate::moves::Move;
use crate::steps::Steps;
use std::alloc::{AllocError, Global};

/// For each step and job the round before which the step can't get before the step of the job on
/// its machine again.
#[derive(Drop)]
pub struct Tabu {
    rounds: Vec<u32>,
    round: u32,
}

// Returns the index for a step and the job of another one.
fn index(steps: &Steps, first: u32, second: u32) -> u32 {
    let job = at(&steps.job, second);
    first.wrapping_mul(steps.jobs).wrapping_add(job)
}

// Returns for how many rounds an order is forbidden.
fn tenure(steps: &Steps, draws: &mut Draws) -> u32 {
    let least = (steps.jobs / steps.machines.max(1)).saturating_add(10);
    let more = if steps.jobs / 2 <= steps.machines {
        least / 5 * 2
    } else {
        least / 2
    };
    least.wrapping_add(draws.below(more.saturating_add(1)))
}

impl Tabu {
    /// Returns a table that forbids nothing.
    pub fn new(alloc: Global, steps: &Steps) -> Result<Tabu, AllocError> {
        let size = (steps.count as usize).saturating_mul(steps.jobs as usize);
        Ok(Tabu {
            rounds: vec![in alloc; 0; size]?,
            round: 0,
        })
    }

    /// Allows everything.
    pub fn clear(&mut self) {
        for round in self.rounds.iter_mut() {
            *round = 0;
        }
        self.round = 0;
    }

    /// Begins the next round.
    pub fn advance(&mut self) {
        self.round = self.round.saturating_add(1);
    }

    // Returns whether a step can't get before another one.
    fn is_forbidden(&self, steps: &Steps, first: u32, second: u32) -> bool {
        at(&self.rounds, index(steps, first, second)) > self.round
    }

    /// Returns whether a move restores an order that is forbidden.
    pub fn forbids(&self, steps: &Steps, path: &[u32], candidate: Move) -> bool {
        let step = candidate.step(path);
        for index in 0..candidate.others() {
            let other = candidate.other(path, index);
            let is_forbidden = if candidate.is_first {
                self.is_forbidden(steps, other, step)
            } else {
                self.is_forbidden(steps, step, other)
            };
            if is_forbidden {
                return true;
            }
        }
        false
    }

    /// Forbids the orders that a move ends.
    pub fn forbid(&mut self, steps: &Steps, path: &[u32], made: Move, draws: &mut Draws) {
        let until = self.round.saturating_add(tenure(steps, draws));
        let step = made.step(path);
        for place in 0..made.others() {
            let other = made.other(path, place);
            let index = if made.is_first {
                index(steps, step, other)
            } else {
                index(steps, other, step)
            };
            put(&mut self.rounds, index, until);
        }
    }
}
