//! Queue of the steps and machines that a search has to handle again.

use crate::finder::{Finder, Hint};
use crate::graph::{Graph, Pair};
use crate::state::{End, State, at};
use crate::work::Work;
use std::alloc::{AllocError, Global};

/// A first-in, first-out queue of the steps whose head or tail has risen, each at most once. A
/// machine is stale if one of its steps was handled since its last deduction. The queue also keeps
/// the stale machines, the finder of their hints, the number of failures of each pair, and the work
/// since the last look at the clock. No clause depends on the contents: a missing step can only cost
/// the search a deduction.
#[derive(Drop)]
pub struct Queue {
    ring: Vec<u32>,
    front: usize,
    back: usize,
    waits: Vec<bool>,
    stale: Vec<bool>,
    finder: Finder,
    pub weights: Vec<u32>,
    work: Work,
}

// Returns the index after another one in a ring.
fn place_after(place: usize, length: usize) -> usize {
    if place < length && place + 1 < length {
        place + 1
    } else {
        0
    }
}

impl Queue {
    /// Returns an empty queue for the steps of a graph. The weights of the pairs are those of an
    /// earlier search, or 1 if their number is another one.
    pub fn new(alloc: Global, graph: &Graph, weights: Vec<u32>) -> Result<Queue, AllocError> {
        let steps = graph.times.len();
        let is_known = weights.len() == graph.pairs.len();
        Ok(Queue {
            ring: vec![in alloc; 0; steps.saturating_add(1)]?,
            front: 0,
            back: 0,
            waits: vec![in alloc; false; steps]?,
            stale: vec![in alloc; false; graph.cliques.len()]?,
            finder: Finder::new(alloc, graph)?,
            weights: if is_known {
                weights
            } else {
                vec![in alloc; 1; graph.pairs.len()]?
            },
            work: Work::new(),
        })
    }

    /// Queues a step unless it is queued already.
    pub fn push(&mut self, step: u32) {
        let place = step as usize;
        if place < self.waits.len() && !self.waits[place] && self.back < self.ring.len() {
            self.waits[place] = true;
            self.ring[self.back] = step;
            self.back = place_after(self.back, self.ring.len());
        }
    }

    /// Queues a step if its head or tail has risen.
    pub fn note(&mut self, step: u32, has_risen: bool) {
        if has_risen {
            self.push(step);
        }
    }

    // Removes the first step.
    fn take(&mut self) -> Option<u32> {
        if self.front == self.back {
            return None;
        }
        let step = *self.ring.get(self.front)?;
        self.front = place_after(self.front, self.ring.len());
        if (step as usize) < self.waits.len() {
            self.waits[step as usize] = false;
        }
        Some(step)
    }

    /// Removes the first step, and marks its machine as stale.
    pub fn pop(&mut self, graph: &Graph) -> Option<u32> {
        let step = self.take()?;
        if let Some(rules) = graph.rules.get(step as usize) {
            self.work.add(rules.len());
        }
        let machine = at(&graph.machines, step) as usize;
        if machine < self.stale.len() {
            self.stale[machine] = true;
        }
        Some(step)
    }

    /// Tests whether a machine is stale, and removes the mark.
    pub fn take_stale(&mut self, machine: usize) -> bool {
        if machine < self.stale.len() && self.stale[machine] {
            self.stale[machine] = false;
            return true;
        }
        false
    }

    /// Stores hints for the steps of a machine. Returns a step of a set that leaves no room.
    pub fn look(
        &mut self,
        limit: u32,
        state: &State,
        clique: &[u32],
        machine: usize,
    ) -> Option<Hint> {
        self.work.add(clique.len().saturating_mul(clique.len()));
        self.finder.look(limit, state, clique, machine)
    }

    /// Returns whether the watcher should be asked whether the search should end.
    pub fn is_due(&self) -> bool {
        self.work.is_due()
    }

    /// Starts the count of work again: the watcher was asked.
    pub fn restart_work(&mut self) {
        self.work.restart();
    }

    /// Returns the hint that the step at an index of the clique goes behind others, or ahead of
    /// them if `end` is the finish.
    pub fn hint(&self, end: End, place: usize) -> Option<Hint> {
        self.finder.hint(end, place)
    }

    // Removes the marks of all stale machines.
    fn clear_machines(&mut self) {
        for machine in 0..self.stale.len() {
            self.take_stale(machine);
        }
    }

    // Removes all steps.
    fn clear_steps(&mut self) {
        for _step in 0..self.ring.len() {
            if self.take().is_none() {
                break;
            }
        }
    }

    // Queues all steps.
    fn push_all(&mut self) {
        let mut step: u32 = 0;
        for _place in 0..self.waits.len() {
            self.push(step);
            step = step.saturating_add(1);
        }
    }

    /// Returns the number of failures of a pair plus 1 (Boussemart, Hemery, Lecoutre and Sais
    /// 2004).
    pub fn weight(&self, place: usize) -> u64 {
        match self.weights.get(place) {
            Some(weight) => *weight as u64,
            None => 1,
        }
    }

    /// Counts a failure of a rule if it is a pair.
    pub fn blame(&mut self, graph: &Graph, rule: u32) {
        let arcs = graph.arcs.len();
        if (rule as usize) < arcs {
            return;
        }
        let place = rule as usize - arcs;
        if place < self.weights.len() {
            self.weights[place] = self.weights[place].saturating_add(1);
        }
    }

    /// Clears the queue, and queues the two steps of a pair, or all steps if there is no pair.
    pub fn restart(&mut self, pair: Option<&Pair>) {
        self.clear_steps();
        self.clear_machines();
        match pair {
            Some(pair) => {
                self.push(pair.first);
                self.push(pair.second);
            }
            None => self.push_all(),
        }
    }
}
