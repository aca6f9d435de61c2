//! Reasons in the words of a line.

use crate::arcs::Arcs;
use crate::fault::LineFault;
use crate::numbers::{end, member_of, number, place};
use plan_kernel::{Member, Reason};
use plan_psplib::Words;

/// A clause has no number above this one.
const LAST_CLAUSE: u32 = 10_000_000;

/// No clause.
const NONE: u32 = u32::MAX;

/// The numbers that a kernel gave to the clauses of a log.
#[derive(Drop)]
pub struct ClauseNumbers {
    numbers: Vec<u32>,
}

impl ClauseNumbers {
    /// Returns no numbers.
    pub fn new(numbers: Vec<u32>) -> ClauseNumbers {
        ClauseNumbers { numbers }
    }

    /// Returns the number that a kernel gave to a clause of the log.
    pub fn number(&self, clause: u32) -> Result<u32, LineFault> {
        let place = clause as usize;
        if place < self.numbers.len() && self.numbers[place] != NONE {
            return Ok(self.numbers[place]);
        }
        Err(LineFault::DoesNotFollow)
    }

    // Makes room for a clause of the log.
    fn stretch(&mut self, clause: u32) -> Result<(), LineFault> {
        if clause > LAST_CLAUSE {
            return Err(LineFault::DoesNotFollow);
        }
        for _ in self.numbers.len()..(clause as usize).saturating_add(1) {
            self.numbers.push(NONE)?;
        }
        Ok(())
    }

    /// Adds a clause of the log. Its number must be free.
    pub fn add(&mut self, clause: u32, number: u32) -> Result<(), LineFault> {
        self.stretch(clause)?;
        let place = clause as usize;
        if place >= self.numbers.len() || self.numbers[place] != NONE {
            return Err(LineFault::DoesNotFollow);
        }
        self.numbers[place] = number;
        Ok(())
    }

    /// Takes a clause of the log out. Returns the number that a kernel gave to it.
    pub fn take(&mut self, clause: u32) -> Result<u32, LineFault> {
        let number = self.number(clause)?;
        let place = clause as usize;
        if place < self.numbers.len() {
            self.numbers[place] = NONE;
        }
        Ok(number)
    }
}

// Reads the arc of two activities, or of an activity and the makespan.
fn arc_of<'a>(arcs: &Arcs, words: &mut Words<'_>) -> Result<Reason<'a>, LineFault> {
    let (from, to, value) = (place(words)?, place(words)?, number(words)?);
    if to as usize == arcs.activities() {
        let activity = from;
        return Ok(Reason::End { activity, value });
    }
    match arcs.number(from, to) {
        Some(arc) => Ok(Reason::Arc { arc, value }),
        None => Err(LineFault::DoesNotFollow),
    }
}

// Reads the members of a window.
fn read_members(
    words: &mut Words<'_>,
    most: usize,
    members: &mut Vec<Member>,
) -> Result<(), LineFault> {
    members.clear();
    for _ in 0..u64::MAX {
        let Some(word) = words.next_word() else {
            break;
        };
        if members.len() >= most {
            return Err(LineFault::DoesNotFollow);
        }
        members.push(member_of(word)?)?;
    }
    Ok(())
}

// Reads a window.
fn energy_of<'a>(
    words: &mut Words<'_>,
    most: usize,
    members: &'a mut Vec<Member>,
) -> Result<Reason<'a>, LineFault> {
    let (resource, from, until) = (place(words)?, number(words)?, number(words)?);
    read_members(words, most, members)?;
    Ok(Reason::Energy {
        resource,
        from,
        until,
        members: members.as_slice(),
    })
}

/// Reads a reason up to the end of a line.
pub fn reason_of<'a>(
    arcs: &Arcs,
    clauses: &ClauseNumbers,
    words: &mut Words<'_>,
    members: &'a mut Vec<Member>,
) -> Result<Reason<'a>, LineFault> {
    let Some(kind) = words.next_word() else {
        return Err(LineFault::Unreadable);
    };
    let reason = match kind {
        b"kept" => Reason::Kept(clauses.number(number(words)?)?),
        b"arc" => arc_of(arcs, words)?,
        b"before" => Reason::Before {
            order: place(words)?,
            value: number(words)?,
        },
        b"after" => Reason::After {
            order: place(words)?,
            value: number(words)?,
        },
        b"energy" => energy_of(words, arcs.activities(), members)?,
        _ => return Err(LineFault::Unreadable),
    };
    end(words)?;
    Ok(reason)
}
