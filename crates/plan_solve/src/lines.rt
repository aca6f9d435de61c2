//! The lines of a log: what was learned, and the reasons that it was resolved from.

use crate::literals::negated;
use plan_kernel::{Arc, Kernel, LIMIT, Lesson, Literal, Member, Order, Reason};
use std::alloc::{AllocError, Global};
use std::fmt::Write;

/// Lines of a log that it hasn't got yet, if a log is wanted. Activities, resources, quantities and
/// orders are numbered from 1, clauses from 0.
#[derive(Drop)]
pub struct Lines {
    is_on: bool,
    text: String,
    // the greatest lower bound that has a line
    bound: u32,
}

// A number that is counted from 0, counted from 1.
fn next(number: u32) -> u32 {
    number.saturating_add(1)
}

// Appends a word and numbers.
fn push(text: &mut String, word: &str, numbers: &[u32]) -> Result<(), AllocError> {
    text.push_str(word)?;
    for number in numbers {
        write!(text, " {number}")?;
    }
    Ok(())
}

// Appends a literal behind a space.
fn push_literal(text: &mut String, literal: Literal) -> Result<(), AllocError> {
    let (quantity, value) = (next(literal.half / 2), literal.value);
    if literal.half % 2 == 0 {
        return write!(text, " {quantity}>={value}");
    }
    let most = LIMIT.saturating_sub(value);
    write!(text, " {quantity}<={most}")
}

// Appends the literals of the clause that a conflict refutes.
fn push_learned(text: &mut String, kernel: &Kernel) -> Result<(), AllocError> {
    for &half in kernel.touched() {
        let value = kernel.conflict(half);
        if value > 0 {
            push_literal(text, negated(Literal { half, value }))?;
        }
    }
    Ok(())
}

// Appends the members of a window.
fn push_members(text: &mut String, members: &[Member]) -> Result<(), AllocError> {
    for member in members {
        let (activity, time) = (next(member.activity), member.time);
        write!(text, " {activity}*{time}")?;
    }
    Ok(())
}

// The arc at a place; one from an activity to itself if there is none.
fn arc_at(kernel: &Kernel, place: u32) -> Arc {
    let arcs = &kernel.input().arcs;
    if (place as usize) < arcs.len() {
        arcs[place as usize]
    } else {
        Arc {
            from: 0,
            to: 0,
            lag: 0,
        }
    }
}

// Appends a reason behind a space. The makespan is an activity behind the others.
fn push_reason(text: &mut String, kernel: &Kernel, reason: Reason) -> Result<(), AllocError> {
    match reason {
        Reason::Kept(clause) => push(text, " kept", &[clause]),
        Reason::Arc { arc, value } => {
            let arc = arc_at(kernel, arc);
            push(text, " arc", &[next(arc.from), next(arc.to), value])
        }
        Reason::End { activity, value } => {
            let end = (kernel.input().durations.len() & 0xffff_ffff) as u32;
            push(text, " arc", &[next(activity), next(end), value])
        }
        Reason::Start { activity, value } => push(text, " start", &[next(activity), value]),
        Reason::Before { order, value } => push(text, " before", &[next(order), value]),
        Reason::After { order, value } => push(text, " after", &[next(order), value]),
        Reason::Energy {
            resource,
            from,
            until,
            members,
        } => {
            push(text, " energy", &[next(resource), from, until])?;
            push_members(text, members)
        }
    }
}

impl Lines {
    /// No lines yet.
    pub fn new(alloc: Global, is_on: bool) -> Lines {
        Lines {
            is_on,
            text: String::new(alloc),
            bound: 0,
        }
    }

    /// Whether a log is wanted.
    pub fn is_on(&self) -> bool {
        self.is_on
    }

    /// The lines.
    pub fn text(&self) -> &str {
        self.text.as_str()
    }

    /// Drops the lines, and all further ones if no more are wanted.
    pub fn clear(&mut self, is_on: bool) {
        self.text.clear();
        self.is_on = is_on;
    }

    /// The orders.
    pub fn orders(&mut self, orders: &[Order]) -> Result<(), AllocError> {
        if self.is_on {
            for order in orders {
                push(
                    &mut self.text,
                    "order",
                    &[next(order.first), next(order.second)],
                )?;
                self.text.push_str("\n")?;
            }
        }
        Ok(())
    }

    /// The best list of starts of a kernel.
    pub fn schedule(&mut self, kernel: &Kernel) -> Result<(), AllocError> {
        match kernel.best() {
            Some(starts) => self.starts("schedule", kernel.upper(), starts),
            None => Ok(()),
        }
    }

    /// The starts of the schedule that the search has come to, as long as the best one of a kernel.
    pub fn solution(&mut self, kernel: &Kernel, starts: &[u32]) -> Result<(), AllocError> {
        self.starts("solution", kernel.upper(), starts)
    }

    /// A conflict begins with a reason.
    pub fn begin(&mut self, kernel: &Kernel, reason: Reason) -> Result<(), AllocError> {
        if self.is_on {
            self.text.push_str("begin")?;
            push_reason(&mut self.text, kernel, reason)?;
            self.text.push_str("\n")?;
        }
        Ok(())
    }

    /// A half of the conflict is resolved with a reason.
    pub fn resolve(
        &mut self,
        kernel: &Kernel,
        half: u32,
        reason: Reason,
    ) -> Result<(), AllocError> {
        if self.is_on {
            let quantity = next(half / 2);
            let sign = if half % 2 == 0 { ">=" } else { "<=" };
            let text = &mut self.text;
            write!(text, "resolve {quantity}{sign}")?;
            push_reason(text, kernel, reason)?;
            text.push_str("\n")?;
        }
        Ok(())
    }

    /// The lesson of a conflict.
    pub fn lesson(&mut self, kernel: &Kernel, lesson: Lesson) -> Result<(), AllocError> {
        if self.is_on {
            match lesson {
                Lesson::Refuted => self.text.push_str("refuted")?,
                Lesson::Fact(_) => self.text.push_str("fact")?,
                Lesson::Clause(clause) => push(&mut self.text, "keep", &[clause])?,
            }
            push_learned(&mut self.text, kernel)?;
            self.text.push_str("\n")?;
        }
        Ok(())
    }

    /// A clause is dropped.
    pub fn dropped(&mut self, clause: u32) -> Result<(), AllocError> {
        self.line("drop", clause)
    }

    /// The lower bound that was proved, if it has risen.
    pub fn rise(&mut self, bound: u32) -> Result<(), AllocError> {
        if bound > self.bound {
            self.bound = bound;
            self.lower(bound)?;
        }
        Ok(())
    }

    /// The lower bound that was proved.
    pub fn lower(&mut self, bound: u32) -> Result<(), AllocError> {
        self.line("lower", bound)
    }

    // A line of a word, a makespan and starts.
    fn starts(&mut self, word: &str, makespan: u32, starts: &[u32]) -> Result<(), AllocError> {
        if self.is_on {
            push(&mut self.text, word, &[makespan])?;
            push(&mut self.text, "", starts)?;
            self.text.push_str("\n")?;
        }
        Ok(())
    }

    // A line of a word and a number.
    fn line(&mut self, word: &str, number: u32) -> Result<(), AllocError> {
        if self.is_on {
            push(&mut self.text, word, &[number])?;
            self.text.push_str("\n")?;
        }
        Ok(())
    }
}
