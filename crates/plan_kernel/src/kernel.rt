//! The kernel. Begin here: all public calls with their contracts.

ghost use Rattle.std.specs.Prelude.{◌≡◌, ◌≤◌, length, IfOk, IfSome, OnErr, IsTrue};

use crate::conflict::{Conflict, begin, learned, no_conflict, resolve};
use crate::fault::KernelFault;
use crate::input::Input;
use crate::known::{
    Known, Lesson, clause_of, first_known, learn, lower, lower_bound, remove, swap,
};
use crate::literal::{LIMIT, Literal, at};
use crate::reason::Reason;
use std::alloc::{AllocError, Global};
use std::marker::Model;

/// Facts and clauses about the starts of a scheduling problem, and at most one conflict. All of it
/// is true of each plan that costs less than the upper bound, which is the cost of the best plan
/// handed in.
///
/// Nothing but these calls changes what a kernel holds, so whatever calls them, in whatever order,
/// can make it hold nothing false. Every call returns for every argument.
#[derive(Drop)]
pub struct Kernel {
    known: Known,
    conflict: Conflict,
}

impl Model for Kernel {
    ghost use Rattle.plan_kernel.specs.Kernels.{State, IsTrueOf};

    ghost Value = { State };

    ghost view = { λ k. record { known = k.known; conflict = k.conflict } };

    ghost invariant = { λ k. IsTrueOf k.known k.conflict };
}

impl Kernel {
    ghost use Rattle.std.specs.Prelude.{◌≡◌, ◌≤◌, ℕ, true, false, length, IfOk, IfSome, IfNone, IsTrue, IsFalse, IsErrOf, OnErr, OnOk, min, ◌&&◌, ◌<◌};
    ghost use Rattle.plan_kernel.specs.Plans.{IsLeastCost};
    ghost use Rattle.plan_kernel.specs.Literals as literals;
    ghost use Rattle.plan_kernel.specs.Clauses as clauses;
    ghost use Rattle.plan_kernel.specs.Kernels as spec;

    /// A kernel of a problem, with no plan yet: its upper bound is [`LIMIT`].
    pub fn new(alloc: Global, input: Input) -> Result<Kernel, AllocError>
        ensures input { IfOk result (λ kernel. kernel.known.input ≡ input) }
        ensures upper { IfOk result (λ kernel. kernel.known.upper ≡ LIMIT) }
        ensures found { IfOk result (λ kernel. kernel.known.found ≡ false) }
        ensures halves { IfOk result (λ kernel.
            length kernel.known.facts.items ≡ spec.count_halves input) }
        ensures values { IfOk result (λ kernel.
            length kernel.conflict.values.items ≡ spec.count_halves input) }
    {
        Kernel::below(alloc, input, LIMIT)
    }

    /// A kernel of the plans of a problem that cost less than a number, at most [`LIMIT`]. It has no
    /// plan yet, and the number is its upper bound.
    pub fn below(alloc: Global, input: Input, upper: u32) -> Result<Kernel, AllocError>
        requires { upper ≤ LIMIT }
        ensures input { IfOk result (λ kernel. kernel.known.input ≡ input) }
        ensures upper { IfOk result (λ kernel. kernel.known.upper ≡ upper) }
        ensures found { IfOk result (λ kernel. kernel.known.found ≡ false) }
        ensures halves { IfOk result (λ kernel.
            length kernel.known.facts.items ≡ spec.count_halves input) }
        ensures values { IfOk result (λ kernel.
            length kernel.conflict.values.items ≡ spec.count_halves input) }
    {
        let known = first_known(alloc, input, upper)?;
        let conflict = no_conflict(alloc, known.facts.len())?;
        Ok(Kernel { known, conflict })
    }

    /// The numbers of the problem.
    pub fn input(&self) -> &Input
        ensures { result.now ≡ self.now.known.input }
    {
        &self.known.input
    }

    /// The cost of the best plan, or the first upper bound if there is none yet.
    pub fn upper(&self) -> u32
        ensures value { result ≡ self.now.known.upper }
        ensures limit { result ≤ LIMIT }
    {
        self.known.upper
    }

    /// The best plan, if one was found.
    pub fn best(&self) -> Option<&[u32]>
        ensures some { IfSome result (λ starts.
            spec.IsBest self.now.known.input starts.now self.now.known.upper) }
        ensures none { IfNone result (self.now.known.found ≡ false) }
    {
        if self.known.found {
            Some(self.known.best.as_slice())
        } else {
            None
        }
    }

    /// A number that no cost of a plan is below: the known cost, or the greatest known start with its
    /// duration and tail if that is greater; or the upper bound if that is less or nothing is below
    /// it.
    pub fn lower_bound(&self) -> u32
        ensures lower { spec.IsLowerBound self.now.known.input result }
        ensures below { result ≤ self.now.known.upper }
        ensures refuted { self.now.known.refuted ≡ true → result ≡ self.now.known.upper }
        ensures known { self.now.known.refuted ≡ false
            → result ≡ min (spec.known_cost self.now.known) self.now.known.upper }
    {
        lower_bound(&self.known)
    }

    /// Whether the best plan is proved to be one of least cost.
    pub fn is_optimal(&self) -> bool
        ensures least { IsTrue result
            → IsLeastCost self.now.known.input self.now.known.best.items }
        ensures value { result ≡ (self.now.known.found && self.now.known.refuted) }
    {
        self.known.found && self.known.refuted
    }

    /// How many halves there are: two for each activity, for the cost and for each order.
    pub fn halves(&self) -> usize
        ensures { result ≡ length self.now.known.facts.items }
    {
        self.known.facts.len()
    }

    /// The greatest value of a half that is known to hold, 0 if there is no such half.
    pub fn fact(&self, half: u32) -> u32
        ensures { result ≡ literals.at self.now.known.facts.items half }
    {
        at(&self.known.facts, half as usize)
    }

    /// Whether there is a conflict.
    pub fn has_conflict(&self) -> bool
        ensures { result ≡ self.now.conflict.open }
    {
        self.conflict.open
    }

    /// The value of a half in the conflict, 0 if it has none.
    pub fn conflict(&self, half: u32) -> u32
        ensures { result ≡ literals.at self.now.conflict.values.items half }
    {
        at(&self.conflict.values, half as usize)
    }

    /// The halves that have a value in the conflict.
    pub fn touched(&self) -> &[u32]
        ensures { result.now ≡ self.now.conflict.touched.items }
    {
        self.conflict.touched.as_slice()
    }

    /// The number of clause numbers given out so far; dropped clauses count.
    pub fn clauses(&self) -> usize
        ensures { result ≡ length self.now.known.clauses.items }
    {
        self.known.clauses.len()
    }

    /// How many literals the kept clauses have, with an allowance for each clause.
    pub fn literals(&self) -> u64
        ensures { result ≡ self.now.known.literals }
    {
        self.known.literals
    }

    /// The literals of a kept clause. A clause that was dropped, or never kept, has none.
    pub fn clause(&self, clause: u32) -> &[Literal]
        ensures { spec.IsAmong self.now.known.clauses.items result.now }
    {
        clause_of(&self.known.clauses, clause)
    }

    /// Makes the literals of a reason's clause, negated, the conflict, except those that are facts.
    ///
    /// Returns whether it is a reason. If not, there is no conflict.
    pub fn begin(&mut self, reason: Reason) -> bool
        ensures same { self.new.known.input ≡ self.old.known.input }
        ensures known { self.new.known ≡ self.old.known }
        ensures open { result ≡ self.new.conflict.open }
    {
        begin(&self.known, &mut self.conflict, reason)
    }

    /// Replaces a half of the conflict by the other literals of a reason's clause, negated, except
    /// those that are facts. Literals of the clause that imply the conflict's literal at this half
    /// are what it is resolved on.
    ///
    /// Returns whether it is a reason and there was a conflict. If not, there is no conflict now.
    pub fn resolve(&mut self, half: u32, reason: Reason) -> bool
        ensures same { self.new.known.input ≡ self.old.known.input }
        ensures known { self.new.known ≡ self.old.known }
        ensures open { result ≡ self.new.conflict.open }
    {
        resolve(&self.known, &mut self.conflict, half, reason)
    }

    /// Learns from the conflict: its negation is a clause. With no literal it refutes the upper
    /// bound, with one it is a fact, and otherwise it is kept. The conflict is then gone.
    pub fn keep(&mut self, alloc: Global) -> Result<Lesson, KernelFault>
        ensures same { self.new.known.input ≡ self.old.known.input }
        ensures upper { self.new.known.upper ≡ self.old.known.upper }
        ensures learned { IfOk result
            (spec.HasLearned self.new.known self.old.conflict.values.items) }
        ensures closed { OnOk result (self.new.conflict.open ≡ false) }
        ensures no_conflict { IsErrOf result KernelFault.NoConflict
            → self.old.conflict.open ≡ false }
        ensures err { OnErr result (spec.IsUnchanged self.old.known self.new.known) }
        ensures conflict { OnErr result (self.new.conflict ≡ self.old.conflict) }
    {
        if !self.conflict.open {
            return Err(KernelFault::NoConflict);
        }
        let clause = learned(alloc, &self.conflict)?;
        let lesson = learn(&mut self.known, clause)?;
        self.conflict.open = false;
        Ok(lesson)
    }

    /// Takes a list of starts if it is a plan and its cost is below the upper bound, and lowers the
    /// upper bound to it. Facts follow: each activity ends, with its tail, before the upper bound.
    ///
    /// Returns whether the list was taken. If not, the kernel is as it was.
    pub fn lower(&mut self, starts: Vec<u32>) -> bool
        ensures same { self.new.known.input ≡ self.old.known.input }
        ensures taken { IsTrue result
            → spec.IsBest self.new.known.input starts.items self.new.known.upper }
        ensures less { IsTrue result → self.new.known.upper < self.old.known.upper }
        ensures refused { IsFalse result
            → clauses.IsShorter self.old.known.input self.old.known.upper starts.items → ⊥ }
        ensures unchanged { IsFalse result → self.new ≡ self.old }
    {
        lower(&mut self.known, starts)
    }

    /// Drops a clause. Its number may be given to another one.
    pub fn remove(&mut self, clause: u32)
        ensures same { self.new.known.input ≡ self.old.known.input }
        ensures upper { self.new.known.upper ≡ self.old.known.upper }
    {
        remove(&mut self.known, clause);
    }

    /// Swaps two literals of a kept clause, if it has both.
    pub fn swap(&mut self, clause: u32, one: usize, other: usize)
        ensures same { self.new.known.input ≡ self.old.known.input }
        ensures upper { self.new.known.upper ≡ self.old.known.upper }
    {
        swap(&mut self.known.clauses, clause, one, other);
    }
}
