//! The facts and clauses of a kernel about a problem.

ghost use Rattle.std.specs.Prelude.{◌≡◌, ◌≤◌, ◌<◌, ◌^◌, true, false, length, get_or, min, IfErr, Some, None, IfOk, IsTrue, IsFalse, OnOk, OnErr};
ghost use Rattle.plan_kernel.specs.Clauses.{IsShorter, IsConsequence};
ghost use Rattle.plan_kernel.specs.Kernels as spec;
ghost use Rattle.plan_kernel.specs.declared.fault.KernelFault.TheVariants.{NoConflict};

use crate::facts::{first_facts, greatest_cost, raise, raise_latest};
use crate::fault::KernelFault;
use crate::feasible::cost_of;
use crate::input::Input;
use crate::literal::{LIMIT, Literal};
use std::alloc::{AllocError, Global};
use std::mem;

/// The most literals that are kept, each clause counted with [`PER_CLAUSE`] more: 48 megabytes.
pub const MOST_LITERALS: u64 = 6_000_000;

/// The memory of a clause beside its literals, in literals.
pub const PER_CLAUSE: u64 = 6;

/// A fact or a clause that a conflict has shown.
#[derive(Clone, Copy, Drop)]
pub enum Lesson {
    /// No plan costs less than the upper bound.
    Refuted,
    /// The fact of this half has risen.
    Fact(u32),
    /// The clause is kept under this number.
    Clause(u32),
}

/// The knowledge of a problem: the best plan, and facts and clauses that hold in all plans that
/// cost less.
#[derive(Drop)]
pub struct Known {
    pub input: Input,
    /// The cost of the best plan, or the first upper bound.
    pub upper: u32,
    pub found: bool,
    pub best: Vec<u32>,
    /// For each half its greatest value that is known to hold.
    pub facts: Vec<u32>,
    /// The kept clauses by their numbers, `None` where one was dropped.
    pub clauses: Vec<Option<Vec<Literal>>>,
    /// The numbers of clauses that were dropped.
    pub free: Vec<u32>,
    /// How many literals are kept, with an allowance for each clause.
    pub literals: u64,
    /// Whether no plan costs less than the upper bound.
    pub refuted: bool,
}

/// Returns the first knowledge of the plans of a problem that cost less than an upper bound.
pub fn first_known(alloc: Global, input: Input, upper: u32) -> Result<Known, AllocError>
    requires { upper ≤ LIMIT }
    ensures input { IfOk result (λ known. known.input ≡ input) }
    ensures upper { IfOk result (λ known. known.upper ≡ upper) }
    ensures found { IfOk result (λ known. known.found ≡ false) }
    ensures holds { IfOk result spec.AreKnown }
    ensures size { IfOk result (λ known.
        length known.facts.items ≡ spec.count_halves known.input) }
{
    let facts = first_facts(alloc, &input, upper)?;
    Ok(Known {
        input,
        upper,
        found: false,
        best: Vec::new(alloc),
        facts,
        clauses: Vec::new(alloc),
        free: Vec::new(alloc),
        literals: 0,
        refuted: false,
    })
}

/// A number that no cost of a plan is below.
pub fn lower_bound(known: &Known) -> u32
    requires { spec.AreKnown known.now }
    ensures lower { spec.IsLowerBound known.now.input result }
    ensures below { result ≤ known.now.upper }
    ensures refuted { known.now.refuted ≡ true → result ≡ known.now.upper }
    ensures known { known.now.refuted ≡ false
        → result ≡ min (spec.known_cost known.now) known.now.upper }
{
    if known.refuted {
        known.upper
    } else {
        greatest_cost(&known.facts, &known.input, known.upper).min(known.upper)
    }
}

/// The literals of a kept clause; none if there is no such clause.
pub fn clause_of(clauses: &[Option<Vec<Literal>>], clause: u32) -> &[Literal]
    ensures { spec.IsAmong clauses.now result.now }
{
    if clause as usize >= clauses.len() {
        return &[];
    }
    match &clauses[clause as usize] {
        Some(literals) => literals.as_slice(),
        None => &[],
    }
}

/// Takes a list of starts if it is a plan that costs less than the best one.
pub fn lower(known: &mut Known, starts: Vec<u32>) -> bool
    requires { spec.AreKnown known.old }
    ensures holds { spec.AreKnown known.new }
    ensures input { known.new.input ≡ known.old.input }
    ensures upper { known.new.upper ≤ known.old.upper }
    ensures taken { IsTrue result → spec.IsBest known.new.input starts.items known.new.upper }
    ensures less { IsTrue result → known.new.upper < known.old.upper }
    ensures refused { IsFalse result
        → IsShorter known.old.input known.old.upper starts.items → ⊥ }
    ensures unchanged { IsFalse result → known.new ≡ known.old }
{
    let Some(cost) = cost_of(&known.input, &starts) else {
        return false;
    };
    if cost >= known.upper as u64 {
        return false;
    }
    known.upper = cost as u32;
    known.found = true;
    known.best = starts;
    raise_latest(&mut known.facts, &known.input, known.upper);
    true
}

/// Learns a clause.
pub fn learn(known: &mut Known, clause: Vec<Literal>) -> Result<Lesson, KernelFault>
    requires known { spec.AreKnown known.old }
    requires clause { IsConsequence known.old.input known.old.upper clause.items }
    ensures holds { spec.AreKnown known.new }
    ensures input { known.new.input ≡ known.old.input }
    ensures upper { known.new.upper ≡ known.old.upper }
    ensures lesson { IfOk result (spec.IsLesson known.new clause) }
    ensures full { IfErr result (λ fault. fault ≡ NoConflict → ⊥) }
    ensures err { OnErr result (spec.IsUnchanged known.old known.new) }
{
    if clause.len() == 0 {
        known.refuted = true;
        return Ok(Lesson::Refuted);
    }
    if clause.len() == 1 {
        let literal = clause[0];
        raise(&mut known.facts, literal.half as usize, literal.value);
        return Ok(Lesson::Fact(literal.half));
    }
    let literals = known
        .literals
        .saturating_add(clause.len() as u64)
        .saturating_add(PER_CLAUSE);
    if literals > MOST_LITERALS || known.clauses.len() as u64 > MOST_LITERALS {
        return Err(KernelFault::Full);
    }
    let kept = store(&mut known.clauses, &mut known.free, clause)?;
    known.literals = literals;
    Ok(Lesson::Clause(kept))
}

// Keeps a clause under a number that is free.
fn store(
    clauses: &mut Vec<Option<Vec<Literal>>>,
    free: &mut Vec<u32>,
    clause: Vec<Literal>,
) -> Result<u32, AllocError>
    requires { length clauses.old.items < 2 ^ 32 }
    ensures at { IfOk result (λ number. get_or clauses.new.items number None ≡ Some clause) }
    ensures ok { OnOk result (spec.HasStored clauses.old.items clauses.new.items clause) }
    ensures err { OnErr result (clauses.new.items ≡ clauses.old.items) }
    ensures free { OnErr result (free.new ≡ free.old) }
{
    if let Some(&number) = free.last() {
        if (number as usize) < clauses.len() {
            let _ = free.pop();
            clauses[number as usize] = Some(clause);
            return Ok(number);
        }
    }
    let number = clauses.len();
    clauses.push(Some(clause))?;
    Ok(number as u32)
}

/// Drops a clause.
pub fn remove(known: &mut Known, clause: u32)
    requires { spec.AreKnown known.old }
    ensures holds { spec.AreKnown known.new }
    ensures input { known.new.input ≡ known.old.input }
    ensures upper { known.new.upper ≡ known.old.upper }
{
    let place = clause as usize;
    if place >= known.clauses.len() {
        return;
    }
    if let Some(literals) = mem::replace(&mut known.clauses[place], None) {
        let freed = (literals.len() as u64).saturating_add(PER_CLAUSE);
        known.literals = known.literals.saturating_sub(freed);
        let _ = known.free.push(clause);
    }
}

/// Swaps two literals of a clause.
pub fn swap(clauses: &mut Vec<Option<Vec<Literal>>>, clause: u32, one: usize, other: usize)
    ensures { spec.HasReordered clauses.old.items clauses.new.items }
{
    let place = clause as usize;
    if place >= clauses.len() {
        return;
    }
    if let Some(mut literals) = mem::replace(&mut clauses[place], None) {
        if one < literals.len() && other < literals.len() {
            literals.swap(one, other);
        }
        clauses[place] = Some(literals);
    }
}
