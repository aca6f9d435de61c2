//! The consequences of bounds that have risen.

use crate::arrays::{Waiting, is_marked, row};
use crate::literals::{at_least, at_most, negated};
use crate::model::Model;
use crate::stop::{Cause, Stop};
use crate::timetable;
use crate::trail::{Entry, Trail};
use crate::usage::Parts;
use crate::watches::Watches;
use crate::windows::Windows;
use plan_kernel::{Kernel, Literal};
use std::alloc::{AllocError, Global};

/// All that propagation keeps.
#[derive(Drop)]
pub struct State {
    pub trail: Trail,
    pub watches: Watches,
    parts: Parts,
    windows: Windows,
    // activities whose bounds have risen, those whose bounds were taken back, and unary resources
    // of which a user has risen
    stale: Waiting,
    loose: Waiting,
    busy: Waiting,
}

// Pushes the successors of an activity that starts later.
fn push_successors(model: &Model, trail: &mut Trail, activity: u32) -> Result<(), Stop> {
    for &place in row(&model.links_from, activity) {
        let link = model.link(place);
        let value = trail.earliest(activity).saturating_add(link.weight);
        trail.set(at_least(link.to, value), Cause::Link(place))?;
    }
    Ok(())
}

// Pushes the predecessors of an activity that starts sooner, or of an earlier makespan.
fn push_predecessors(model: &Model, trail: &mut Trail, activity: u32) -> Result<(), Stop> {
    for &place in row(&model.links_to, activity) {
        let link = model.link(place);
        let value = trail.latest(activity);
        trail.set(at_most(link.from, value, link.weight), Cause::Link(place))?;
    }
    Ok(())
}

/// One activity before another: the literal that says so, and why what follows from it does.
#[derive(Clone, Copy, Drop)]
struct Side {
    first: u32,
    second: u32,
    literal: Literal,
    cause: Cause,
}

// One of the two sides of an order. A side that can't be is refuted because its first activity
// starts no earlier than it does now.
fn side_of(model: &Model, trail: &Trail, place: u32, is_second_first: bool) -> Side {
    let order = model.order(place);
    let quantity = model.quantity(place);
    let (first, second) = (order.first, order.second);
    if is_second_first {
        Side {
            first: second,
            second: first,
            literal: at_most(quantity, 0, 0),
            cause: Cause::After(place, trail.earliest(second)),
        }
    } else {
        Side {
            first,
            second,
            literal: at_least(quantity, 1),
            cause: Cause::Before(place, trail.earliest(first)),
        }
    }
}

// Pushes the second activity of a side to the end of the first.
fn push_second(model: &Model, trail: &mut Trail, side: Side) -> Result<(), Stop> {
    let end = trail
        .earliest(side.first)
        .saturating_add(model.duration(side.first));
    if trail.is_true(side.literal) {
        return trail.set(at_least(side.second, end), side.cause);
    }
    if end > trail.latest(side.second) && !trail.is_false(side.literal) {
        trail.set(negated(side.literal), side.cause)?;
    }
    Ok(())
}

// Pushes the first activity of a side before the latest start of the second.
fn push_first(model: &Model, trail: &mut Trail, side: Side) -> Result<(), Stop> {
    let (latest, duration) = (trail.latest(side.second), model.duration(side.first));
    if trail.is_true(side.literal) {
        return trail.set(at_most(side.first, latest, duration), side.cause);
    }
    let end = trail.earliest(side.first).saturating_add(duration);
    if end > latest && !trail.is_false(side.literal) {
        trail.set(negated(side.literal), side.cause)?;
    }
    Ok(())
}

// Applies the side of an order that holds one way.
fn propagate_order(model: &Model, trail: &mut Trail, half: u32, place: u32) -> Result<(), Stop> {
    let side = side_of(model, trail, place, half % 2 != 0);
    push_second(model, trail, side)?;
    push_first(model, trail, side)
}

// Applies the orders of an activity that starts later or sooner.
fn propagate_bound(model: &Model, trail: &mut Trail, half: u32, place: u32) -> Result<(), Stop> {
    let activity = half / 2;
    let is_second = model.order(place).second == activity;
    if half % 2 == 0 {
        let side = side_of(model, trail, place, is_second);
        push_second(model, trail, side)
    } else {
        let side = side_of(model, trail, place, !is_second);
        push_first(model, trail, side)
    }
}

impl State {
    /// Nothing is known yet. Use of resources is counted before a horizon.
    pub fn new(
        alloc: Global,
        model: &Model,
        halves: usize,
        horizon: u32,
    ) -> Result<State, AllocError> {
        let count = model.count as usize;
        Ok(State {
            trail: Trail::new(alloc, halves)?,
            watches: Watches::new(alloc, halves)?,
            parts: Parts::new(alloc, model, horizon)?,
            windows: Windows::new(alloc, model)?,
            stale: Waiting::new(alloc, count)?,
            loose: Waiting::new(alloc, count)?,
            busy: Waiting::new(alloc, model.kinds as usize)?,
        })
    }

    /// Whether the use of resources can be counted.
    pub fn is_whole(&self) -> bool {
        self.parts.is_whole()
    }

    /// Looks at an activity again.
    pub fn note(&mut self, model: &Model, activity: u32) -> Result<(), AllocError> {
        if is_marked(&model.is_counted, activity) {
            self.stale.add(activity)?;
        }
        for &resource in row(&model.unary_of, activity) {
            self.busy.add(resource)?;
        }
        Ok(())
    }

    // Applies the consequences of a new bound of a start.
    fn propagate_start(&mut self, model: &Model, entry: Entry) -> Result<(), Stop> {
        let activity = entry.half / 2;
        if entry.half % 2 == 0 {
            push_successors(model, &mut self.trail, activity)?;
        } else {
            push_predecessors(model, &mut self.trail, activity)?;
        }
        self.note(model, activity)?;
        let orders = row(&model.orders_of, activity);
        self.trail.work.add(orders.len());
        for &order in orders {
            propagate_bound(model, &mut self.trail, entry.half, order)?;
        }
        Ok(())
    }

    // Applies the consequences of an entry.
    fn propagate_entry(
        &mut self,
        alloc: Global,
        model: &Model,
        kernel: &Kernel,
        entry: Entry,
    ) -> Result<(), Stop> {
        let (old, value) = (entry.old, entry.value);
        self.watches
            .propagate(alloc, kernel, &mut self.trail, entry.half, old, value)?;
        let quantity = entry.half / 2;
        if quantity < model.count {
            self.propagate_start(model, entry)
        } else if quantity == model.end() {
            push_predecessors(model, &mut self.trail, quantity)
        } else {
            let order = model.order_of(quantity);
            propagate_order(model, &mut self.trail, entry.half, order)
        }
    }

    // Applies arcs, orders and clauses to the entries, until the clock is due.
    fn propagate_entries(
        &mut self,
        alloc: Global,
        model: &Model,
        kernel: &Kernel,
    ) -> Result<(), Stop> {
        for _ in 0..u64::MAX {
            if self.trail.work.is_due() {
                break;
            }
            let Some(entry) = self.trail.next() else {
                break;
            };
            self.propagate_entry(alloc, model, kernel, entry)?;
        }
        Ok(())
    }

    // Applies the resources, until a bound rises or the clock is due.
    fn propagate_resources(&mut self, model: &Model) -> Result<(), Stop> {
        for _ in 0..u64::MAX {
            if self.trail.work.is_due() || !self.trail.is_settled() {
                return Ok(());
            }
            let Some(activity) = self.stale.pop() else {
                break;
            };
            timetable::propagate(model, &mut self.parts, &mut self.trail, activity)?;
        }
        for _ in 0..model.kinds {
            if self.trail.work.is_due() {
                break;
            }
            let Some(resource) = self.busy.pop() else {
                break;
            };
            self.trail.work.add(self.windows.unary_work(resource));
            self.windows.check_unary(&self.trail, resource)?;
        }
        Ok(())
    }

    /// Applies all consequences of bounds that have risen. Returns `false` if the clock is due: the
    /// next call continues.
    pub fn propagate(
        &mut self,
        alloc: Global,
        model: &Model,
        kernel: &Kernel,
    ) -> Result<bool, Stop> {
        for _ in 0..u64::MAX {
            self.propagate_entries(alloc, model, kernel)?;
            self.propagate_resources(model)?;
            if self.trail.work.is_due() {
                return Ok(false);
            }
            if self.trail.is_settled() && self.stale.is_empty() {
                break;
            }
        }
        Ok(true)
    }

    /// Looks for a window in which a resource has more work than it can do.
    pub fn check_windows(
        &mut self,
        alloc: Global,
        model: &Model,
        horizon: u32,
    ) -> Result<(), Stop> {
        let work = Windows::whole_work(model, horizon);
        self.trail.work.add(work as usize);
        self.windows.check_all(alloc, model, &self.trail, horizon)
    }

    /// Applies the consequences that hold before any bound has risen.
    pub fn propagate_all(&mut self, model: &Model) -> Result<(), Stop> {
        for activity in 0..model.count {
            self.note(model, activity)?;
            push_successors(model, &mut self.trail, activity)?;
        }
        Ok(())
    }

    /// Takes all bounds back that follow from decisions above a level.
    pub fn go_back(&mut self, model: &Model, level: u32) -> Result<(), AllocError> {
        if self.trail.level() <= level {
            return Ok(());
        }
        for _ in 0..self.trail.len() {
            let Some(half) = self.trail.undo(level) else {
                break;
            };
            self.trail.work.add(1);
            if is_marked(&model.is_counted, half / 2) {
                self.loose.add(half / 2)?;
            }
        }
        self.trail.close(level);
        for _ in 0..model.count {
            let Some(activity) = self.loose.pop() else {
                break;
            };
            let behind = self
                .trail
                .earliest(activity)
                .saturating_add(model.duration(activity));
            let first = self.trail.latest(activity);
            let counted = (self.parts.first(activity), self.parts.behind(activity));
            self.trail.work.add_span(counted.0, counted.1);
            self.parts.shrink(model, activity, first, behind);
        }
        self.stale.clear();
        Ok(())
    }
}
