//! The bounds of all quantities, with the order in which they rose.

use crate::arrays::{at, put};
use crate::literals::negated;
use crate::stop::{Cause, Clash, Stop};
use crate::work::Work;
use plan_kernel::{LIMIT, Literal};
use std::alloc::{AllocError, Global};

/// No entry.
pub const NONE: u32 = u32::MAX;

/// A bound that rose, the entry of the same half before it, and why it rose.
#[derive(Clone, Copy, Drop)]
pub struct Entry {
    pub half: u32,
    pub old: u32,
    pub value: u32,
    pub before: u32,
    pub level: u32,
    pub cause: Cause,
}

/// The bounds of all quantities by their halves, and how they rose. A level is what follows from
/// one decision.
#[derive(Drop)]
pub struct Trail {
    values: Vec<u32>,
    last: Vec<u32>,
    entries: Vec<Entry>,
    starts: Vec<u32>,
    head: usize,
    pub work: Work,
}

impl Trail {
    /// No bound but 0 for so many halves.
    pub fn new(alloc: Global, halves: usize) -> Result<Trail, AllocError> {
        Ok(Trail {
            values: vec![in alloc; 0; halves]?,
            last: vec![in alloc; NONE; halves]?,
            entries: Vec::with_capacity(alloc, halves)?,
            starts: Vec::new(alloc),
            head: 0,
            work: Work::new(),
        })
    }

    /// How many decisions stand.
    pub fn level(&self) -> u32 {
        (self.starts.len() & 0xffff_ffff) as u32
    }

    /// How many entries there are.
    pub fn len(&self) -> u32 {
        (self.entries.len() & 0xffff_ffff) as u32
    }

    /// The entry at a place.
    pub fn entry(&self, place: u32) -> Option<Entry> {
        self.entries.get(place as usize).copied()
    }

    /// The first entry of a level from 1 on; 0 for level 0.
    pub fn start_of(&self, level: u32) -> u32 {
        if level == 0 {
            0
        } else {
            at(&self.starts, level - 1)
        }
    }

    /// The greatest value of a half that holds.
    pub fn value(&self, half: u32) -> u32 {
        at(&self.values, half)
    }

    /// The earliest start of an activity.
    pub fn earliest(&self, activity: u32) -> u32 {
        at(&self.values, activity.wrapping_mul(2))
    }

    /// The latest start of an activity.
    pub fn latest(&self, activity: u32) -> u32 {
        LIMIT.saturating_sub(at(&self.values, activity.wrapping_mul(2) | 1))
    }

    /// Whether a literal holds.
    pub fn is_true(&self, literal: Literal) -> bool {
        literal.value <= at(&self.values, literal.half)
    }

    /// Whether its negation holds.
    pub fn is_false(&self, literal: Literal) -> bool {
        self.is_true(negated(literal))
    }

    /// Adds an entry.
    pub fn push(&mut self, literal: Literal, cause: Cause) -> Result<(), AllocError> {
        let entry = Entry {
            half: literal.half,
            old: at(&self.values, literal.half),
            value: literal.value,
            before: at(&self.last, literal.half),
            level: self.level(),
            cause,
        };
        let place = self.len();
        self.entries.push(entry)?;
        put(&mut self.values, literal.half, literal.value);
        put(&mut self.last, literal.half, place);
        Ok(())
    }

    /// Makes a literal hold, unless its negation does.
    pub fn set(&mut self, literal: Literal, cause: Cause) -> Result<(), Stop> {
        if self.is_true(literal) {
            return Ok(());
        }
        if self.is_false(literal) {
            return Err(Stop::Clash(Clash::Bound(literal, cause)));
        }
        self.push(literal, cause)?;
        Ok(())
    }

    /// Makes a literal hold. Returns `false` if its negation does.
    pub fn hold(&mut self, literal: Literal, cause: Cause) -> Result<bool, AllocError> {
        match self.set(literal, cause) {
            Ok(()) => Ok(true),
            Err(Stop::NoMemory) => Err(AllocError),
            Err(Stop::Clash(_)) => Ok(false),
        }
    }

    /// Opens a level by a decision.
    pub fn decide(&mut self, literal: Literal) -> Result<(), AllocError> {
        let start = self.len();
        self.starts.push(start)?;
        self.push(literal, Cause::Decision)
    }

    /// The entry that made a literal hold; [`NONE`] if none did.
    pub fn entry_of(&self, literal: Literal) -> u32 {
        let mut place = at(&self.last, literal.half);
        for _ in 0..self.entries.len() {
            if place as usize >= self.entries.len() {
                return NONE;
            }
            let entry = &self.entries[place as usize];
            if entry.old < literal.value {
                return place;
            }
            place = entry.before;
        }
        place
    }

    /// The level at which a literal began to hold.
    pub fn level_of(&self, literal: Literal) -> u32 {
        match self.entry(self.entry_of(literal)) {
            Some(entry) => entry.level,
            None => 0,
        }
    }

    /// When a literal began to hold: one more than its entry, 0 if it has none. `None` if it didn't
    /// hold before the entry at a place.
    pub fn age(&self, literal: Literal, place: u32) -> Option<u32> {
        if !self.is_true(literal) {
            return None;
        }
        let age = self.entry_of(literal).wrapping_add(1);
        if age <= place { Some(age) } else { None }
    }

    /// The next entry that wasn't looked at.
    pub fn next(&mut self) -> Option<Entry> {
        let entry = self.entries.get(self.head).copied()?;
        self.head = self.head.saturating_add(1);
        Some(entry)
    }

    /// Whether all entries were looked at.
    pub fn is_settled(&self) -> bool {
        self.head >= self.entries.len()
    }

    /// Takes the last entry back, if it is of a level above another. Returns its half.
    pub fn undo(&mut self, level: u32) -> Option<u32> {
        if level as usize >= self.starts.len() || self.len() <= self.starts[level as usize] {
            return None;
        }
        let entry = self.entries.pop()?;
        put(&mut self.values, entry.half, entry.old);
        put(&mut self.last, entry.half, entry.before);
        Some(entry.half)
    }

    /// Closes all levels above another, after their entries were taken back.
    pub fn close(&mut self, level: u32) {
        if (level as usize) < self.starts.len() {
            self.starts.truncate(level as usize);
            self.head = self.entries.len();
        }
    }

    /// Forgets the entries of facts, which need none.
    pub fn forget(&mut self) {
        for entry in &self.entries {
            put(&mut self.last, entry.half, NONE);
        }
        self.entries.clear();
        self.head = 0;
    }
}
