//! Dates of the steps under given orders on the machines.

use crate::lists::{NONE, at, put};
use crate::rows::Rows;
use crate::steps::Steps;
use std::alloc::{AllocError, Global};

/// The earliest end of each step, and the longest time from its start to the end of the schedule.
#[derive(Drop)]
pub struct Dates {
    pub ends: Vec<u32>,
    pub tails: Vec<u32>,
    pub makespan: u32,
    // a topological order: so many steps so far, the first ones without a step before them
    order: Vec<u32>,
    length: u32,
    roots: u32,
    // how many steps before each step aren't in the order
    waiting: Vec<u32>,
}

impl Dates {
    /// Returns the dates of no schedule.
    pub fn new(alloc: Global, steps: &Steps) -> Result<Dates, AllocError> {
        let count = steps.count as usize;
        Ok(Dates {
            ends: vec![in alloc; 0; count]?,
            tails: vec![in alloc; 0; count]?,
            makespan: 0,
            order: vec![in alloc; 0; count]?,
            length: 0,
            roots: 0,
            waiting: vec![in alloc; 0; count]?,
        })
    }

    // Adds a step to the topological order.
    fn add(&mut self, step: u32) {
        put(&mut self.order, self.length, step);
        self.length = self.length.saturating_add(1);
    }

    // Begins the topological order with the steps that no step is before.
    fn begin(&mut self, steps: &Steps, rows: &Rows) {
        self.length = 0;
        for step in 0..steps.count {
            let is_first = at(&steps.before, step) == NONE;
            let is_alone = is_first || at(&rows.before, step) == NONE;
            let many = if is_alone { 1 } else { 2 };
            if is_first && at(&rows.before, step) == NONE {
                self.add(step);
            }
            put(&mut self.waiting, step, many);
        }
        self.roots = self.length;
    }

    // Counts one step less before a step, and adds the step if it was the last one.
    fn release(&mut self, step: u32) {
        let many = at(&self.waiting, step);
        if many == 1 {
            self.add(step);
        }
        put(&mut self.waiting, step, many.saturating_sub(1));
    }

    // Works out the earliest ends. Returns whether the orders have no cycle.
    fn set_ends(&mut self, steps: &Steps, rows: &Rows) -> bool {
        for index in 0..steps.count {
            if index >= self.length {
                return false;
            }
            let step = at(&self.order, index);
            let first = at(&self.ends, at(&steps.before, step));
            let second = at(&self.ends, at(&rows.before, step));
            let end = first.max(second).wrapping_add(steps.time(step));
            put(&mut self.ends, step, end);
            self.release(at(&steps.behind, step));
            self.release(at(&rows.behind, step));
        }
        true
    }

    // Works out the tails and the makespan.
    fn set_tails(&mut self, steps: &Steps, rows: &Rows) {
        let (mut left, mut makespan) = (steps.count, 0);
        for _ in 0..steps.count {
            left = left.saturating_sub(1);
            let step = at(&self.order, left);
            let first = at(&self.tails, at(&steps.behind, step));
            let second = at(&self.tails, at(&rows.behind, step));
            let tail = first.max(second).wrapping_add(steps.time(step));
            put(&mut self.tails, step, tail);
            makespan = tail.max(makespan);
        }
        self.makespan = makespan;
    }

    /// Works out all dates. Returns whether the orders have no cycle.
    pub fn update(&mut self, steps: &Steps, rows: &Rows) -> bool {
        self.begin(steps, rows);
        let has_no_cycle = self.set_ends(steps, rows);
        if has_no_cycle {
            self.set_tails(steps, rows);
        }
        has_no_cycle
    }

    /// Writes the starts of all steps to a list.
    pub fn write_starts(&self, steps: &Steps, starts: &mut Vec<u32>) {
        for step in 0..steps.count {
            let start = at(&self.ends, step).wrapping_sub(steps.time(step));
            put(starts, step, start);
        }
    }

    /// Returns the number of steps that no step is before.
    pub fn roots(&self) -> u32 {
        self.roots
    }

    /// Returns one of the steps that no step is before.
    pub fn root(&self, index: u32) -> u32 {
        at(&self.order, index)
    }

    /// Returns whether a critical step follows on an end at once.
    pub fn is_critical_after(&self, step: u32, end: u32) -> bool {
        step != NONE && at(&self.tails, step).wrapping_add(end) == self.makespan
    }
}
