//! The conflict: literals that don't all hold together.

ghost use Rattle.std.specs.Prelude.{◌≡◌, ◌≤◌, All, true, false, filter, IfOk, IfSome, IsTrue, length};
ghost use Rattle.plan_kernel.specs.Clauses as spec;
ghost use Rattle.plan_kernel.specs.Kernels.{AreKnown, IsTrueOf};

use crate::known::{Known, clause_of};
use crate::literal::{Literal, at, negated};
use crate::reason::{Reason, fill};
use std::alloc::{AllocError, Global};

/// Literals that don't all hold together, if the conflict is open.
#[derive(Drop)]
pub struct Conflict {
    pub open: bool,
    /// For each half the value of its literal, 0 if there is none.
    pub values: Vec<u32>,
    /// The halves that have a literal.
    pub touched: Vec<u32>,
    /// Room for the clause of a reason.
    pub scratch: Vec<Literal>,
}

/// No conflict, with room for literals of so many halves.
pub fn no_conflict(alloc: Global, halves: usize) -> Result<Conflict, AllocError>
    ensures closed { IfOk result (λ conflict. conflict.open ≡ false) }
    ensures size { IfOk result (λ conflict. length conflict.values.items ≡ halves) }
    ensures listed { IfOk result (λ conflict.
        spec.IsListed conflict.values.items conflict.touched.items) }
{
    Ok(Conflict {
        open: false,
        values: vec![in alloc; 0u32; halves]?,
        touched: Vec::with_capacity(alloc, halves)?,
        scratch: Vec::with_capacity(alloc, halves)?,
    })
}

// Takes all literals out.
fn clear(values: &mut Vec<u32>, touched: &mut Vec<u32>)
    requires { spec.IsListed values.old.items touched.old.items }
    ensures { spec.IsListed values.new.items touched.new.items }
{
    for &half in touched.iter() {
        if (half as usize) < values.len() {
            values[half as usize] = 0;
        }
    }
    touched.clear();
}

// Takes a half out of a list.
fn take_out(touched: &mut Vec<u32>, half: u32)
    ensures { touched.new.items ≡ filter (spec.is_other half) touched.old.items }
{
    touched.retain(|&other| other != half);
}

// Takes the literal of a half out.
fn clear_half(values: &mut Vec<u32>, touched: &mut Vec<u32>, half: u32)
    requires { spec.IsListed values.old.items touched.old.items }
    ensures listed { spec.IsListed values.new.items touched.new.items }
    ensures others { spec.IsClearedAt values.old.items values.new.items half }
{
    if (half as usize) < values.len() {
        values[half as usize] = 0;
        take_out(touched, half);
    }
}

// Puts a literal in, unless it is a fact. Returns whether that could be done.
fn add(values: &mut Vec<u32>, touched: &mut Vec<u32>, facts: &[u32], literal: Literal) -> bool
    requires { spec.IsListed values.old.items touched.old.items }
    ensures listed { spec.IsListed values.new.items touched.new.items }
    ensures raised { spec.IsRaised values.old.items values.new.items }
    ensures covered { IsTrue result → spec.IsCovered facts.now values.new.items literal }
{
    let place = literal.half as usize;
    if literal.value <= at(facts, place) {
        return true;
    }
    if place >= values.len() {
        return false;
    }
    if values[place] == 0 && touched.push(literal.half).is_err() {
        return false;
    }
    if values[place] < literal.value {
        values[place] = literal.value;
    }
    true
}

// Whether a literal implies the pivot, if there is one.
fn implies(literal: Literal, pivot: Option<Literal>) -> bool
    ensures { IsTrue result → spec.Implies literal pivot }
{
    match pivot {
        Some(other) => literal.half == other.half && other.value <= literal.value,
        None => false,
    }
}

// Puts the negations of a clause's literals in, except of those that imply the pivot. Returns
// whether that could be done.
fn add_clause(
    values: &mut Vec<u32>,
    touched: &mut Vec<u32>,
    facts: &[u32],
    clause: &[Literal],
    pivot: Option<Literal>,
) -> bool
    requires { spec.IsListed values.old.items touched.old.items }
    ensures listed { spec.IsListed values.new.items touched.new.items }
    ensures raised { spec.IsRaised values.old.items values.new.items }
    ensures covered { IsTrue result → spec.AreCovered facts.now values.new.items pivot clause.now }
{
    for &literal in clause {
        if !implies(literal, pivot) && !add(values, touched, facts, negated(literal)) {
            return false;
        }
    }
    true
}

// Puts in those of a reason's clause.
fn add_reason(
    known: &Known,
    conflict: &mut Conflict,
    reason: Reason,
    pivot: Option<Literal>,
) -> bool
    requires known { AreKnown known.now }
    requires listed { spec.IsListed conflict.old.values.items conflict.old.touched.items }
    ensures listed { spec.IsListed conflict.new.values.items conflict.new.touched.items }
    ensures raised { spec.IsRaised conflict.old.values.items conflict.new.values.items }
    ensures added { IsTrue result → spec.HasAdded known.now.input known.now.upper
        known.now.facts.items conflict.new.values.items pivot }
{
    if let Reason::Kept(clause) = reason {
        let clause = clause_of(&known.clauses, clause);
        return clause.len() > 0
            && add_clause(
                &mut conflict.values,
                &mut conflict.touched,
                &known.facts,
                clause,
                pivot,
            );
    }
    matches!(fill(&known.input, reason, &mut conflict.scratch), Ok(true))
        && add_clause(
            &mut conflict.values,
            &mut conflict.touched,
            &known.facts,
            &conflict.scratch,
            pivot,
        )
}

/// Begins a conflict with the negation of a reason's clause.
pub fn begin(known: &Known, conflict: &mut Conflict, reason: Reason) -> bool
    requires { IsTrueOf known.now conflict.old }
    ensures holds { IsTrueOf known.now conflict.new }
    ensures open { result ≡ conflict.new.open }
{
    clear(&mut conflict.values, &mut conflict.touched);
    conflict.open = add_reason(known, conflict, reason, None);
    conflict.open
}

/// Resolves a conflict with a reason's clause.
pub fn resolve(known: &Known, conflict: &mut Conflict, half: u32, reason: Reason) -> bool
    requires { IsTrueOf known.now conflict.old }
    ensures holds { IsTrueOf known.now conflict.new }
    ensures open { result ≡ conflict.new.open }
{
    let value = at(&conflict.values, half as usize);
    clear_half(&mut conflict.values, &mut conflict.touched, half);
    let pivot = Some(Literal { half, value });
    conflict.open = conflict.open && add_reason(known, conflict, reason, pivot);
    conflict.open
}

/// The negation of a conflict, as a clause.
pub fn learned(alloc: Global, conflict: &Conflict) -> Result<Vec<Literal>, AllocError>
    requires { spec.IsListed conflict.now.values.items conflict.now.touched.items }
    ensures { IfOk result (λ clause. spec.IsNegated conflict.now.values.items clause.items) }
{
    let mut clause = Vec::with_capacity(alloc, conflict.touched.len())?;
    for &half in &conflict.touched {
        let value = at(&conflict.values, half as usize);
        if value > 0 {
            clause.push(negated(Literal { half, value }))?;
        }
    }
    Ok(clause)
}
