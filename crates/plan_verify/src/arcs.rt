//! The arcs of a problem by their ends.

use plan_kernel::{Arc, Input};
use std::alloc::{AllocError, Global};

/// No arc.
const NONE: u32 = u32::MAX;

/// For each pair of activities the number of the arc from the first one to the second one.
#[derive(Drop)]
pub struct Arcs {
    count: usize,
    numbers: Vec<u32>,
}

impl Arcs {
    /// Returns the arcs of a problem.
    pub fn new(alloc: Global, input: &Input) -> Result<Arcs, AllocError> {
        let count = input.durations.len();
        let mut arcs = Arcs {
            count,
            numbers: vec![in alloc; NONE; count.saturating_mul(count)]?,
        };
        for (place, &arc) in input.arcs.iter().enumerate() {
            arcs.set(arc, (place & 0xffff_ffff) as u32);
        }
        Ok(arcs)
    }

    // Returns the place of a pair.
    fn place(&self, from: u32, to: u32) -> usize {
        (from as usize)
            .saturating_mul(self.count)
            .saturating_add(to as usize)
    }

    // Sets the number of an arc.
    fn set(&mut self, arc: Arc, number: u32) {
        let place = self.place(arc.from, arc.to);
        if place < self.numbers.len() {
            self.numbers[place] = number;
        }
    }

    /// Returns how many activities there are.
    pub fn activities(&self) -> usize {
        self.count
    }

    /// Returns the number of the arc from one activity to another.
    pub fn number(&self, from: u32, to: u32) -> Option<u32> {
        let place = self.place(from, to);
        if (to as usize) < self.count && place < self.numbers.len() {
            let number = self.numbers[place];
            if number != NONE {
                return Some(number);
            }
        }
        None
    }
}
