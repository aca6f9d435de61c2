//! How much of each resource is absent, or in use by the parts of activities that are fixed.

use crate::arrays::{at, put};
use crate::model::Model;
use plan_kernel::Absence;
use std::alloc::{AllocError, Global};

/// The greatest number of instants, over all resources, for which use is counted.
pub const MOST_CELLS: u64 = 4_000_000;

/// How much of each resource is absent at each instant, or in use by the fixed parts of activities:
/// those between their latest start and their earliest end.
#[derive(Drop)]
pub struct Parts {
    horizon: u32,
    used: Vec<u32>,
    from: Vec<u32>,
    to: Vec<u32>,
}

impl Parts {
    /// Nothing in use before a horizon beside what is absent.
    pub fn new(alloc: Global, model: &Model, horizon: u32) -> Result<Parts, AllocError> {
        let cells = (horizon as u64).saturating_mul(model.kinds as u64);
        // Without resources there is one cell, so that use counts as known.
        let cells = if cells <= MOST_CELLS { cells.max(1) } else { 0 };
        let mut parts = Parts {
            horizon,
            used: vec![in alloc; 0; cells as usize]?,
            from: vec![in alloc; 0; model.durations.len()]?,
            to: vec![in alloc; 0; model.durations.len()]?,
        };
        for absence in &model.absences {
            parts.add_absence(*absence);
        }
        Ok(parts)
    }

    /// Whether use is counted at all instants.
    pub fn is_whole(&self) -> bool {
        self.horizon == 0 || !self.used.is_empty()
    }

    /// How much of a resource is absent or in use at an instant.
    pub fn at(&self, resource: u32, instant: u32) -> u32 {
        let row = resource.wrapping_mul(self.horizon);
        at(&self.used, row.wrapping_add(instant))
    }

    /// How much of a resource is absent or in use at each instant from one to another.
    pub fn slice(&self, resource: u32, from: u32, to: u32) -> &[u32] {
        let row = resource.wrapping_mul(self.horizon) as usize;
        let first = row.saturating_add(from as usize);
        let behind = row.saturating_add(to as usize);
        if first <= behind && behind <= self.used.len() {
            &self.used[first..behind]
        } else {
            &[]
        }
    }

    /// The first instant of the part of an activity that is counted.
    pub fn first(&self, activity: u32) -> u32 {
        at(&self.from, activity)
    }

    /// The instant behind it.
    pub fn behind(&self, activity: u32) -> u32 {
        at(&self.to, activity)
    }

    /// Whether an activity is counted at an instant.
    pub fn is_counted(&self, activity: u32, instant: u32) -> bool {
        self.first(activity) <= instant && instant < self.behind(activity)
    }

    // Adds a number, modulo 2^32, from an instant to another.
    fn add(&mut self, resource: u32, from: u32, to: u32, amount: u32) {
        let row = resource.wrapping_mul(self.horizon) as usize;
        let first = row.saturating_add(from as usize);
        let behind = row.saturating_add(to as usize);
        if first <= behind && behind <= self.used.len() {
            for cell in &mut self.used[first..behind] {
                *cell = cell.wrapping_add(amount);
            }
        }
    }

    // Adds what an absence takes before the horizon.
    fn add_absence(&mut self, absence: Absence) {
        let until = absence.until.min(self.horizon);
        if absence.from < until {
            self.add(absence.resource, absence.from, until, absence.amount);
        }
    }

    // Counts an activity from an instant to another, or no longer counts it there.
    fn count(&mut self, model: &Model, activity: u32, from: u32, to: u32, is_more: bool) {
        if from >= to {
            return;
        }
        for resource in 0..model.kinds {
            let need = model.need(activity, resource);
            if need > 0 {
                let amount = if is_more {
                    need
                } else {
                    0u32.wrapping_sub(need)
                };
                self.add(resource, from, to, amount);
            }
        }
    }

    /// Counts the part of an activity, which has grown to one between two instants.
    pub fn grow(&mut self, model: &Model, activity: u32, first: u32, behind: u32) {
        let (from, to) = (self.first(activity), self.behind(activity));
        if from == to {
            self.count(model, activity, first, behind, true);
        } else {
            self.count(model, activity, first, from, true);
            self.count(model, activity, to, behind, true);
        }
        put(&mut self.from, activity, first);
        put(&mut self.to, activity, behind);
    }

    /// Counts no more of the part of an activity than what is between two instants.
    pub fn shrink(&mut self, model: &Model, activity: u32, first: u32, behind: u32) {
        let (from, to) = (self.first(activity), self.behind(activity));
        let (first, behind) = (first.max(from), behind.min(to));
        if first >= behind {
            self.count(model, activity, from, to, false);
            put(&mut self.from, activity, 0);
            put(&mut self.to, activity, 0);
            return;
        }
        self.count(model, activity, from, first, false);
        self.count(model, activity, behind, to, false);
        put(&mut self.from, activity, first);
        put(&mut self.to, activity, behind);
    }
}
