//! Kept clauses by the literals of which one must hold as soon as all others are false.

use crate::literals::negated;
use crate::stop::{Cause, Stop};
use crate::trail::Trail;
use plan_kernel::{Kernel, Literal};
use std::alloc::{AllocError, Global};
use std::mem;

/// A clause of which a watched literal is false from a value of a half on.
#[derive(Clone, Copy, Drop)]
struct Watch {
    clause: u32,
    threshold: u32,
}

/// A literal of a clause, and its place.
#[derive(Clone, Copy, Drop)]
struct Watched {
    place: u32,
    literal: Literal,
}

/// For each half the clauses that it may make false, and for each clause the two literals that are
/// watched (Moskewicz, Madigan, Zhao, Zhang and Malik, "Chaff", 2001).
#[derive(Drop)]
pub struct Watches {
    lists: Vec<Vec<Watch>>,
    pairs: Vec<(Watched, Watched)>,
}

// The literal at place 0 of no clause, which always holds.
const NONE: Watched = Watched {
    place: 0,
    literal: Literal { half: 0, value: 0 },
};

/// The literal at a place of a clause; one that always holds if there is none.
pub fn literal_at(clause: &[Literal], place: u32) -> Literal {
    if (place as usize) < clause.len() {
        clause[place as usize]
    } else {
        Literal { half: 0, value: 0 }
    }
}

// The literal at a place of a clause, with the place.
fn at_place(clause: &[Literal], place: u32) -> Watched {
    Watched {
        place,
        literal: literal_at(clause, place),
    }
}

// The place of a literal that isn't false, other than two, from a place to another.
fn open_between(
    clause: &[Literal],
    trail: &Trail,
    watched: (u32, u32),
    from: u32,
    until: u32,
) -> Option<u32> {
    let mut place = from;
    for &literal in part(clause, from, until) {
        if place != watched.0 && place != watched.1 && !trail.is_false(literal) {
            return Some(place);
        }
        place = place.wrapping_add(1);
    }
    None
}

// The literals of a clause from a place to another.
fn part(clause: &[Literal], from: u32, until: u32) -> &[Literal] {
    let (from, until) = (from as usize, (until as usize).min(clause.len()));
    if from <= until {
        &clause[from..until]
    } else {
        &[]
    }
}

// The place of a literal that isn't false, other than two. The search goes round from the place of
// the one that has become false (Gent, "Optimal implementation of watched literals and more general
// techniques", 2013).
fn place_of_open(clause: &[Literal], trail: &Trail, refuted: u32, other: u32) -> Option<u32> {
    let watched = (refuted, other);
    let behind = open_between(clause, trail, watched, refuted.saturating_add(1), u32::MAX);
    if behind.is_some() {
        return behind;
    }
    open_between(clause, trail, watched, 0, refuted)
}

impl Watches {
    /// No clauses, for so many halves.
    pub fn new(alloc: Global, halves: usize) -> Result<Watches, AllocError> {
        let mut lists = Vec::with_capacity(alloc, halves)?;
        for _ in 0..halves {
            lists.push(Vec::new(alloc))?;
        }
        Ok(Watches {
            lists,
            pairs: Vec::new(alloc),
        })
    }

    // The two literals of a clause that are watched.
    fn pair(&self, clause: u32) -> (Watched, Watched) {
        if (clause as usize) < self.pairs.len() {
            self.pairs[clause as usize]
        } else {
            (NONE, NONE)
        }
    }

    // Changes the two literals of a clause that are watched.
    fn put(&mut self, clause: u32, one: Watched, other: Watched) {
        if (clause as usize) < self.pairs.len() {
            self.pairs[clause as usize] = (one, other);
        }
    }

    // Watches a literal of a clause.
    fn watch(&mut self, clause: u32, literal: Literal) -> Result<(), AllocError> {
        let refuting = negated(literal);
        let half = refuting.half as usize;
        if half < self.lists.len() {
            let threshold = refuting.value;
            self.lists[half].push(Watch { clause, threshold })?;
        }
        Ok(())
    }

    /// Watches two literals of a clause by their places.
    pub fn add(
        &mut self,
        kernel: &Kernel,
        clause: u32,
        first: u32,
        second: u32,
    ) -> Result<(), AllocError> {
        for _ in self.pairs.len()..(clause as usize).saturating_add(1) {
            self.pairs.push((NONE, NONE))?;
        }
        let literals = kernel.clause(clause);
        let (one, other) = (at_place(literals, first), at_place(literals, second));
        self.put(clause, one, other);
        self.watch(clause, one.literal)?;
        self.watch(clause, other.literal)
    }

    /// Watches nothing.
    pub fn clear(&mut self) {
        for place in 0..self.lists.len() {
            self.lists[place].clear();
        }
    }

    // Looks at a clause of which a watched literal has become false. Returns whether another
    // literal is watched in its place.
    fn visit(
        &mut self,
        kernel: &Kernel,
        trail: &mut Trail,
        watch: Watch,
        half: u32,
    ) -> Result<bool, Stop> {
        let (one, other) = self.pair(watch.clause);
        let refuted = negated(Literal {
            half,
            value: watch.threshold,
        });
        let is_first = one.literal.half == refuted.half && one.literal.value == refuted.value;
        let (left, gone) = if is_first { (other, one) } else { (one, other) };
        let literal = left.literal;
        if trail.is_true(literal) {
            return Ok(false);
        }
        let clause = kernel.clause(watch.clause);
        trail.work.add(clause.len());
        if let Some(place) = place_of_open(clause, trail, gone.place, left.place) {
            let moved = at_place(clause, place);
            if is_first {
                self.put(watch.clause, moved, other);
            } else {
                self.put(watch.clause, one, moved);
            }
            self.watch(watch.clause, moved.literal)?;
            return Ok(true);
        }
        trail.set(literal, Cause::Kept(watch.clause))?;
        Ok(false)
    }

    // Looks at the clauses of a list that a half has made false by rising, and leaves the others.
    fn scan(
        &mut self,
        kernel: &Kernel,
        trail: &mut Trail,
        list: &mut Vec<Watch>,
        half: u32,
        old: u32,
        value: u32,
    ) -> Result<(), Stop> {
        let mut stay: usize = 0;
        let mut outcome = Ok(());
        for place in 0..list.len() {
            let watch = list[place];
            let is_hit = outcome.is_ok() && old < watch.threshold && watch.threshold <= value;
            let mut has_moved = false;
            if is_hit {
                match self.visit(kernel, trail, watch, half) {
                    Ok(moved) => has_moved = moved,
                    Err(stop) => outcome = Err(stop),
                }
            }
            if !has_moved && stay < list.len() {
                list[stay] = watch;
                stay = stay.saturating_add(1);
            }
        }
        list.truncate(stay);
        outcome
    }

    /// Looks at the clauses that a half has made false by rising from one value to another.
    pub fn propagate(
        &mut self,
        alloc: Global,
        kernel: &Kernel,
        trail: &mut Trail,
        half: u32,
        old: u32,
        value: u32,
    ) -> Result<(), Stop> {
        let place = half as usize;
        if place >= self.lists.len() {
            return Ok(());
        }
        let mut list = mem::replace(&mut self.lists[place], Vec::new(alloc));
        trail.work.add(list.len());
        let outcome = self.scan(kernel, trail, &mut list, half, old, value);
        if place < self.lists.len() {
            self.lists[place] = list;
        }
        outcome
    }
}
