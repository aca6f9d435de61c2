//! The comparison of two lists: whether they have the same table and the same week.

ghost use Rattle.std.specs.Prelude.{◌≡◌, bytes_eq, map, IsFalse, IsTrue};
ghost use Rattle.std.specs.Cmp.Lexicographic.{pointwise};
ghost use Rattle.plan_table.specs.Table.{activity_of, resource_of};
ghost use Rattle.plan_weekback.specs.Comparisons as tests;
ghost use Rattle.plan_weekback.specs.Sameness as spec;

use plan_kernel::{Absence, Arc};
use plan_table::{Activity, Resource, Table};
use plan_week::{State, Week};
use plan_weeklist::ListedWeek;

// Whether two flags are the same.
fn same_flag(a: bool, b: bool) -> bool
    ensures { result ≡ tests.same_flag a b }
{
    if a { b } else { !b }
}

// Whether two texts are the same.
fn same_text(a: &str, b: &str) -> bool
    ensures { result ≡ bytes_eq a.now b.now }
{
    a == b
}

// Whether two lists of numbers are the same.
fn same_numbers(a: &[u32], b: &[u32]) -> bool
    ensures { result ≡ tests.same_numbers a.now b.now }
{
    a == b
}

// Whether two lists of capacities are the same.
fn same_capacities(a: &[u64], b: &[u64]) -> bool
    ensures { result ≡ tests.same_numbers a.now b.now }
{
    a == b
}

// Whether two activities are the same, in the same line.
fn same_activity(a: &Activity, b: &Activity) -> bool
    ensures { result ≡ tests.same_activity (activity_of a.now) (activity_of b.now) }
{
    a.line == b.line
        && same_text(a.id.as_str(), b.id.as_str())
        && same_text(a.name.as_str(), b.name.as_str())
        && a.duration == b.duration
        && same_numbers(&a.predecessors, &b.predecessors)
        && same_numbers(&a.needs, &b.needs)
}

// Whether activities are the same.
fn same_activities(a: &[Activity], b: &[Activity]) -> bool
    ensures { result ≡ pointwise tests.same_activity (map activity_of a.now)
        (map activity_of b.now) }
{
    let mut rest = b;
    for one in a {
        match rest {
            [other, others @ ..] => {
                if !same_activity(one, other) {
                    return false;
                }
                rest = others;
            }
            [] => return false,
        }
    }
    match rest {
        [] => true,
        [_, ..] => false,
    }
}

// Whether two resources are the same.
fn same_resource(a: &Resource, b: &Resource) -> bool
    ensures { result ≡ tests.same_resource (resource_of a.now) (resource_of b.now) }
{
    same_text(a.name.as_str(), b.name.as_str()) && a.capacity == b.capacity
}

// Whether resources are the same.
fn same_resources(a: &[Resource], b: &[Resource]) -> bool
    ensures { result ≡ pointwise tests.same_resource (map resource_of a.now)
        (map resource_of b.now) }
{
    let mut rest = b;
    for one in a {
        match rest {
            [other, others @ ..] => {
                if !same_resource(one, other) {
                    return false;
                }
                rest = others;
            }
            [] => return false,
        }
    }
    match rest {
        [] => true,
        [_, ..] => false,
    }
}

// Whether two tables are the same.
fn same_table(a: &Table, b: &Table) -> bool
    ensures { result ≡ tests.same_table a.now b.now }
{
    same_flag(a.own_ids, b.own_ids)
        && same_activities(&a.activities, &b.activities)
        && same_resources(&a.resources, &b.resources)
}

// Whether two arcs are the same.
fn same_arc(a: &Arc, b: &Arc) -> bool
    ensures { result ≡ tests.same_arc a.now b.now }
{
    a.from == b.from && a.to == b.to && a.lag == b.lag
}

// Whether arcs are the same.
fn same_arcs(a: &[Arc], b: &[Arc]) -> bool
    ensures { result ≡ pointwise tests.same_arc a.now b.now }
{
    let mut rest = b;
    for one in a {
        match rest {
            [other, others @ ..] => {
                if !same_arc(one, other) {
                    return false;
                }
                rest = others;
            }
            [] => return false,
        }
    }
    match rest {
        [] => true,
        [_, ..] => false,
    }
}

// Whether the needs of activities are the same.
fn same_needs(a: &[Vec<u32>], b: &[Vec<u32>]) -> bool
    ensures { result ≡ pointwise tests.same_numbers (map (λ row. row.items) a.now)
        (map (λ row. row.items) b.now) }
{
    let mut rest = b;
    for one in a {
        match rest {
            [other, others @ ..] => {
                if !same_numbers(one, other) {
                    return false;
                }
                rest = others;
            }
            [] => return false,
        }
    }
    match rest {
        [] => true,
        [_, ..] => false,
    }
}

// Whether two instants are the same, or both are missing.
fn same_instant(a: Option<u32>, b: Option<u32>) -> bool
    ensures { result ≡ tests.same_instant a b }
{
    match (a, b) {
        (Some(a), Some(b)) => a == b,
        (None, None) => true,
        (Some(_), None) | (None, Some(_)) => false,
    }
}

// Whether a state is that of an activity that hasn't begun.
fn is_open(earliest: u32, fixed: Option<u32>, state: State) -> bool
    ensures { result ≡ tests.is_open earliest fixed state }
{
    match state {
        State::Open {
            earliest: other,
            fixed: appointment,
        } => earliest == other && same_instant(fixed, appointment),
        State::Begun { .. } | State::Done { .. } => false,
    }
}

// Whether a state is that of an activity that has begun.
fn is_begun(began: u32, remaining: u32, state: State) -> bool
    ensures { result ≡ tests.is_begun began remaining state }
{
    match state {
        State::Begun {
            began: other,
            remaining: rest,
        } => began == other && remaining == rest,
        State::Open { .. } | State::Done { .. } => false,
    }
}

// Whether a state is that of an activity that is done.
fn is_done(ended: u32, state: State) -> bool
    ensures { result ≡ tests.is_done ended state }
{
    match state {
        State::Done { ended: other } => ended == other,
        State::Open { .. } | State::Begun { .. } => false,
    }
}

// Whether two states are the same.
fn same_state(a: State, b: State) -> bool
    ensures { result ≡ tests.same_state a b }
{
    match a {
        State::Open { earliest, fixed } => is_open(earliest, fixed, b),
        State::Begun { began, remaining } => is_begun(began, remaining, b),
        State::Done { ended } => is_done(ended, b),
    }
}

// Whether states are the same.
fn same_states(a: &[State], b: &[State]) -> bool
    ensures { result ≡ pointwise tests.same_state a.now b.now }
{
    let mut rest = b;
    for &one in a {
        match rest {
            [other, others @ ..] => {
                if !same_state(one, *other) {
                    return false;
                }
                rest = others;
            }
            [] => return false,
        }
    }
    match rest {
        [] => true,
        [_, ..] => false,
    }
}

// Whether due dates are the same.
fn same_dues(a: &[Option<u32>], b: &[Option<u32>]) -> bool
    ensures { result ≡ pointwise tests.same_instant a.now b.now }
{
    let mut rest = b;
    for &one in a {
        match rest {
            [other, others @ ..] => {
                if !same_instant(one, *other) {
                    return false;
                }
                rest = others;
            }
            [] => return false,
        }
    }
    match rest {
        [] => true,
        [_, ..] => false,
    }
}

// Whether two absences are the same.
fn same_absence(a: &Absence, b: &Absence) -> bool
    ensures { result ≡ tests.same_absence a.now b.now }
{
    a.resource == b.resource && a.from == b.from && a.until == b.until && a.amount == b.amount
}

// Whether absences are the same.
fn same_absences(a: &[Absence], b: &[Absence]) -> bool
    ensures { result ≡ pointwise tests.same_absence a.now b.now }
{
    let mut rest = b;
    for one in a {
        match rest {
            [other, others @ ..] => {
                if !same_absence(one, other) {
                    return false;
                }
                rest = others;
            }
            [] => return false,
        }
    }
    match rest {
        [] => true,
        [_, ..] => false,
    }
}

// Whether two weeks are the same.
fn same_week(a: &Week, b: &Week) -> bool
    ensures { result ≡ tests.same_week a.now b.now }
{
    same_numbers(&a.durations, &b.durations)
        && same_arcs(&a.arcs, &b.arcs)
        && same_needs(&a.needs, &b.needs)
        && same_capacities(&a.capacities, &b.capacities)
        && same_states(&a.states, &b.states)
        && same_dues(&a.dues, &b.dues)
        && same_absences(&a.absences, &b.absences)
        && a.today == b.today
}

// Whether two lists pass the tests for the same table and the same week.
fn compared(a: &ListedWeek, b: &ListedWeek) -> bool
    ensures { result ≡ tests.same_list a.now b.now }
{
    same_table(&a.table, &b.table) && same_week(&a.week, &b.week)
}

/// Whether two lists have the same table and the same week.
#[tactic(auto, using(crate::proofs::SamenessLemmas::same))]
pub fn same_list(a: &ListedWeek, b: &ListedWeek) -> bool
    ensures yes { IsTrue result → spec.IsSameList a.now b.now }
    ensures no { IsFalse result → spec.IsSameList a.now b.now → ⊥ }
{
    compared(a, b)
}
