//! The lines of a log as calls of a kernel.

ghost use Rattle.std.specs.Prelude.{◌≡◌, IfOk};

use crate::arcs::Arcs;
use crate::fault::LineFault;
use crate::numbers::{HalfWord, end, half_of, negation_of, number};
use crate::reasons::{ClauseNumbers, reason_of};
use plan_kernel::{Input, Kernel, KernelFault, Lesson, Literal, Member};
use plan_psplib::Words;
use std::alloc::{AllocError, Global};

/// The state after the lines so far: the kernel, and the meaning of their numbers.
#[derive(Drop)]
pub struct Replay {
    pub kernel: Kernel,
    // a new kernel of the same problem, which checks the last schedule
    spare: Kernel,
    arcs: Arcs,
    clauses: ClauseNumbers,
    members: Vec<Member>,
    // for each half the last lesson that named it, and the number of lessons
    named: Vec<u64>,
    lessons: u64,
}

// Returns a copy of a problem, without orders.
fn copy_of(alloc: Global, input: &Input) -> Result<Input, AllocError> {
    let mut needs = Vec::new(alloc);
    for row in &input.needs {
        needs.push(Vec::from_slice(alloc, row.as_slice())?)?;
    }
    Ok(Input {
        durations: Vec::from_slice(alloc, input.durations.as_slice())?,
        arcs: Vec::from_slice(alloc, input.arcs.as_slice())?,
        needs,
        capacities: Vec::from_slice(alloc, input.capacities.as_slice())?,
        orders: Vec::new(alloc),
        windows: Vec::from_slice(alloc, input.windows.as_slice())?,
        absences: Vec::from_slice(alloc, input.absences.as_slice())?,
        tails: Vec::from_slice(alloc, input.tails.as_slice())?,
    })
}

// Returns the number of literals of a conflict.
fn count_literals(kernel: &Kernel) -> u64 {
    let mut count: u64 = 0;
    for &half in kernel.touched() {
        if kernel.conflict(half) > 0 {
            count = count.saturating_add(1);
        }
    }
    count
}

// Returns the error of a lesson that can't be kept.
fn lesson_fault(fault: KernelFault) -> LineFault {
    match fault {
        KernelFault::NoMemory => LineFault::NoMemory,
        KernelFault::Full | KernelFault::NoConflict => LineFault::DoesNotFollow,
    }
}

// Refuses a line unless it follows.
fn expect(follows: bool) -> Result<(), LineFault> {
    if follows {
        Ok(())
    } else {
        Err(LineFault::DoesNotFollow)
    }
}

// Reads starts up to the end of a line, at most so many.
fn starts_of(alloc: Global, words: &mut Words<'_>, most: usize) -> Result<Vec<u32>, LineFault> {
    let mut starts = Vec::new(alloc);
    for _ in 0..most {
        if words.is_at_end() {
            break;
        }
        starts.push(number(words)?)?;
    }
    end(words)?;
    Ok(starts)
}

impl Replay {
    /// Returns a replay of no lines.
    pub fn new(alloc: Global, input: Input) -> Result<Replay, AllocError>
        ensures { IfOk result (λ replay. replay.kernel.known.input ≡ input) }
    {
        let arcs = Arcs::new(alloc, &input)?;
        let spare = Kernel::new(alloc, copy_of(alloc, &input)?)?;
        let kernel = Kernel::new(alloc, input)?;
        let named = vec![in alloc; 0u64; kernel.halves()]?;
        Ok(Replay {
            kernel,
            spare,
            arcs,
            clauses: ClauseNumbers::new(Vec::new(alloc)),
            members: Vec::new(alloc),
            named,
            lessons: 0,
        })
    }

    // Takes a schedule that is shorter than the best one.
    fn schedule(&mut self, alloc: Global, words: &mut Words<'_>) -> Result<(), LineFault>
        ensures { self.new.kernel.known.input ≡ self.old.kernel.known.input }
    {
        let makespan = number(words)?;
        let starts = starts_of(alloc, words, self.arcs.activities())?;
        let is_taken = self.kernel.lower(starts);
        expect(is_taken && self.kernel.upper() == makespan)
    }

    // Checks a schedule that is as long as the best one.
    fn solution(&mut self, alloc: Global, words: &mut Words<'_>) -> Result<(), LineFault>
        ensures { self.new.kernel ≡ self.old.kernel }
    {
        let makespan = number(words)?;
        let starts = starts_of(alloc, words, self.arcs.activities())?;
        expect(self.kernel.best().is_some() && self.kernel.upper() == makespan)?;
        let is_taken = self.spare.lower(starts);
        expect(is_taken && self.spare.upper() == makespan)
    }

    // Begins a conflict.
    fn begin(&mut self, words: &mut Words<'_>) -> Result<(), LineFault>
        ensures { self.new.kernel.known.input ≡ self.old.kernel.known.input }
    {
        let reason = reason_of(&self.arcs, &self.clauses, words, &mut self.members)?;
        expect(self.kernel.begin(reason))
    }

    // Resolves a literal of the conflict.
    fn resolve(&mut self, words: &mut Words<'_>) -> Result<(), LineFault>
        ensures { self.new.kernel.known.input ≡ self.old.kernel.known.input }
    {
        let Some(word) = words.next_word() else {
            return Err(LineFault::Unreadable);
        };
        let HalfWord { half, rest } = half_of(word)?;
        if !rest.is_empty() {
            return Err(LineFault::Unreadable);
        }
        let reason = reason_of(&self.arcs, &self.clauses, words, &mut self.members)?;
        expect(self.kernel.conflict(half) > 0)?;
        expect(self.kernel.resolve(half, reason))
    }

    // Marks a literal as named. Returns whether it is one of the conflict that wasn't named yet.
    fn name(&mut self, literal: Literal) -> bool
        ensures { self.new.kernel ≡ self.old.kernel }
    {
        let place = literal.half as usize;
        if place >= self.named.len() || self.named[place] == self.lessons {
            return false;
        }
        self.named[place] = self.lessons;
        literal.value > 0 && self.kernel.conflict(literal.half) == literal.value
    }

    // Reads the negation of the conflict up to the end of a line. Returns the number of literals.
    fn lesson(&mut self, words: &mut Words<'_>) -> Result<u64, LineFault>
        ensures { self.new.kernel ≡ self.old.kernel }
    {
        self.lessons = self.lessons.saturating_add(1);
        let count = count_literals(&self.kernel);
        for _ in 0..count {
            let Some(word) = words.next_word() else {
                return Err(LineFault::DoesNotFollow);
            };
            let literal = negation_of(word)?;
            expect(self.name(literal))?;
        }
        expect(words.next_word().is_none())?;
        Ok(count)
    }

    // Keeps the negation of the conflict as a clause.
    fn keep(&mut self, alloc: Global, words: &mut Words<'_>) -> Result<(), LineFault>
        ensures { self.new.kernel.known.input ≡ self.old.kernel.known.input }
    {
        let clause = number(words)?;
        let count = self.lesson(words)?;
        expect(count > 1)?;
        match self.kernel.keep(alloc).map_err(lesson_fault)? {
            Lesson::Clause(number) => self.clauses.add(clause, number),
            Lesson::Fact(_) | Lesson::Refuted => Err(LineFault::DoesNotFollow),
        }
    }

    // Learns the negation of a conflict that has so many literals: one or none.
    fn learn(
        &mut self,
        alloc: Global,
        words: &mut Words<'_>,
        literals: u64,
    ) -> Result<(), LineFault>
        ensures { self.new.kernel.known.input ≡ self.old.kernel.known.input }
    {
        let count = self.lesson(words)?;
        expect(count == literals)?;
        let _lesson = self.kernel.keep(alloc).map_err(lesson_fault)?;
        Ok(())
    }

    // Drops a clause.
    fn drop_clause(&mut self, words: &mut Words<'_>) -> Result<(), LineFault>
        ensures { self.new.kernel.known.input ≡ self.old.kernel.known.input }
    {
        let clause = number(words)?;
        end(words)?;
        let number = self.clauses.take(clause)?;
        self.kernel.remove(number);
        Ok(())
    }

    // Gives another number to a clause.
    fn move_clause(&mut self, words: &mut Words<'_>) -> Result<(), LineFault>
        ensures { self.new.kernel ≡ self.old.kernel }
    {
        let (clause, new) = (number(words)?, number(words)?);
        end(words)?;
        let number = self.clauses.take(clause)?;
        self.clauses.add(new, number)
    }

    // Checks a lower bound.
    fn lower(&mut self, words: &mut Words<'_>) -> Result<(), LineFault>
        ensures { self.new.kernel ≡ self.old.kernel }
    {
        let bound = number(words)?;
        end(words)?;
        expect(bound <= self.kernel.lower_bound())
    }

    /// Takes the next line.
    pub fn step(&mut self, alloc: Global, line: &[u8]) -> Result<(), LineFault>
        ensures { self.new.kernel.known.input ≡ self.old.kernel.known.input }
    {
        let mut words = Words::new(line);
        let Some(kind) = words.next_word() else {
            return Err(LineFault::Unreadable);
        };
        match kind {
            b"begin" => self.begin(&mut words),
            b"resolve" => self.resolve(&mut words),
            b"keep" => self.keep(alloc, &mut words),
            b"fact" => self.learn(alloc, &mut words, 1),
            b"refuted" => self.learn(alloc, &mut words, 0),
            b"schedule" => self.schedule(alloc, &mut words),
            b"solution" => self.solution(alloc, &mut words),
            b"drop" => self.drop_clause(&mut words),
            b"move" => self.move_clause(&mut words),
            b"lower" => self.lower(&mut words),
            b"order" => Err(LineFault::DoesNotFollow),
            _ => Err(LineFault::Unreadable),
        }
    }
}
