//! The choice of the next move.

use crate::draws::Draws;
use crate::moves::Move;

/// The best move that isn't forbidden of those seen so far, and a random one of them.
#[derive(Drop)]
pub struct Choice {
    best: Option<Move>,
    estimate: u32,
    // how many moves have that estimate, and how many there are
    ties: u32,
    any: Option<Move>,
    count: u32,
}

impl Choice {
    /// Returns a choice of no moves.
    pub fn new() -> Choice {
        Choice {
            best: None,
            estimate: u32::MAX,
            ties: 0,
            any: None,
            count: 0,
        }
    }

    /// Adds a move.
    pub fn add(&mut self, candidate: Move, draws: &mut Draws) {
        self.count = self.count.wrapping_add(1);
        if draws.takes_last(self.count) {
            self.any = Some(candidate);
        }
    }

    /// Adds the estimate of a move that isn't forbidden. The best of equal ones is a random one.
    pub fn add_estimate(&mut self, candidate: Move, estimate: u32, draws: &mut Draws) {
        if estimate < self.estimate {
            self.ties = 0;
        }
        if estimate <= self.estimate {
            self.estimate = estimate;
            self.ties = self.ties.wrapping_add(1);
            if draws.takes_last(self.ties) {
                self.best = Some(candidate);
            }
        }
    }

    /// Returns the best move, or a random one if all are forbidden. `None` if there is none.
    pub fn best(&self) -> Option<Move> {
        if self.best.is_some() {
            self.best
        } else {
            self.any
        }
    }

    /// Returns a random move, `None` if there is none.
    pub fn any(&self) -> Option<Move> {
        self.any
    }
}
