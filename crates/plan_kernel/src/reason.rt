//! Reasons: the clauses that hold in every plan.

ghost use Rattle.std.specs.Prelude.{◌≡◌, ◌+◌, ◌≤◌, ◌<◌, IfOk, IfSome, IsTrue, OnOk};
ghost use Rattle.plan_kernel.specs.Inputs.{problem_of};
ghost use Rattle.plan_kernel.specs.Clauses.{IsConsequence};
ghost use Rattle.plan_kernel.specs.Reasons as spec;

use crate::input::{Absence, Arc, Input, capacity, need};
use crate::literal::{LIMIT, Literal, at};
use std::alloc::AllocError;

/// An activity that occupies at least `time` instants of a window.
#[derive(Clone, Copy, Drop)]
pub struct Member {
    pub activity: u32,
    pub time: u32,
}

/// A clause that holds in every plan that costs less than the best one, by what makes it hold.
#[derive(Clone, Copy, Drop)]
pub enum Reason<'a> {
    /// The kept clause of this number.
    Kept(u32),
    /// An arc: `from` starts before `value`, or `to` starts at `value` + duration of `from` + lag
    /// or later.
    Arc {
        arc: u32,
        value: u32,
    },
    /// The cost: the activity starts before `value`, or the cost is at least `value` + duration and
    /// tail of the activity.
    End {
        activity: u32,
        value: u32,
    },
    /// A start: the activity starts before `value`, or at `value` or later.
    Start {
        activity: u32,
        value: u32,
    },
    /// An order that is 1: it is 0, or `first` starts before `value`, or `second` starts at `value`
    /// + duration of `first` or later.
    Before {
        order: u32,
        value: u32,
    },
    /// An order that is 0, of activities that last and can't overlap: it is 1, or `second` starts
    /// before `value`, or `first` starts at `value` + duration of `second` or later.
    After {
        order: u32,
        value: u32,
    },
    /// The window from `from` to `until` is too short, beside what is absent in it, for its members,
    /// which rise by their numbers: one of them, which should be in it for `time`, starts before `from` + `time` - duration or
    /// after `until` - `time`.
    Energy {
        resource: u32,
        from: u32,
        until: u32,
        members: &'a [Member],
    },
}

// Whether there is such an activity, and literals of it can be written.
fn is_activity(input: &Input, activity: u32) -> bool
    ensures { IsTrue result → spec.IsWritable input.now activity }
{
    (activity as usize) < input.durations.len() && activity < LIMIT
}

/// An order with its quantity.
#[derive(Clone, Copy, Drop)]
pub struct OrderAt {
    pub first: u32,
    pub second: u32,
    pub quantity: u32,
}

// An order with its quantity, if there is such an order and literals of it can be written.
fn ordering(input: &Input, order: u32) -> Option<OrderAt>
    ensures { IfSome result (spec.IsOrder input.now) }
{
    let place = order as usize;
    let quantity = input
        .durations
        .len()
        .saturating_add(1)
        .saturating_add(place);
    if place < input.orders.len() && quantity < LIMIT as usize {
        let pair = input.orders[place];
        Some(OrderAt {
            first: pair.first,
            second: pair.second,
            quantity: quantity as u32,
        })
    } else {
        None
    }
}

// The literal that a quantity is at least a value.
fn at_least(quantity: u32, value: u32) -> Literal
    requires { quantity < LIMIT }
    ensures { result ≡ spec.at_least quantity value }
{
    Literal {
        half: 2 * quantity,
        value,
    }
}

// The literal that a quantity is below a value.
fn below(quantity: u32, value: u32) -> Literal
    requires { quantity < LIMIT }
    ensures { result ≡ spec.below quantity value }
{
    Literal {
        half: 2 * quantity + 1,
        value: (LIMIT + 1).saturating_sub(value),
    }
}

// Whether two activities last and need more of some resource together than there is.
fn are_apart(input: &Input, first: u32, second: u32) -> bool
    ensures { IsTrue result → spec.AreApart (problem_of input.now) first second }
{
    if first == second
        || at(&input.durations, first as usize) == 0
        || at(&input.durations, second as usize) == 0
    {
        return false;
    }
    for resource in 0..input.capacities.len() {
        let one = need(input, first as usize, resource) as u64;
        if one + need(input, second as usize, resource) as u64 > capacity(input, resource) {
            return true;
        }
    }
    false
}

// The clause of an arc.
fn fill_arc(
    input: &Input,
    arc: u32,
    value: u32,
    clause: &mut Vec<Literal>,
) -> Result<bool, AllocError>
    ensures { IfOk result (λ is. IsTrue is → IsConsequence input.now LIMIT clause.new.items) }
{
    if arc as usize >= input.arcs.len() {
        return Ok(false);
    }
    let Arc { from, to, lag } = input.arcs[arc as usize];
    if !is_activity(input, from) || !is_activity(input, to) {
        return Ok(false);
    }
    let weight = at(&input.durations, from as usize).saturating_add(lag);
    clause.clear();
    clause.push(below(from, value))?;
    clause.push(at_least(to, value.saturating_add(weight)))?;
    Ok(true)
}

// The clause of the cost and an activity.
fn fill_end(
    input: &Input,
    activity: u32,
    value: u32,
    clause: &mut Vec<Literal>,
) -> Result<bool, AllocError>
    ensures { IfOk result (λ is. IsTrue is → IsConsequence input.now LIMIT clause.new.items) }
{
    let count = input.durations.len();
    if !is_activity(input, activity) || count >= LIMIT as usize {
        return Ok(false);
    }
    let end = value.saturating_add(at(&input.durations, activity as usize));
    let tail = at(&input.tails, activity as usize);
    let reach = end.saturating_add(tail);
    clause.clear();
    clause.push(below(activity, value))?;
    clause.push(at_least(count as u32, reach))?;
    Ok(true)
}

// The clause of a start.
fn fill_start(
    input: &Input,
    activity: u32,
    value: u32,
    clause: &mut Vec<Literal>,
) -> Result<bool, AllocError>
    ensures { IfOk result (λ is. IsTrue is → IsConsequence input.now LIMIT clause.new.items) }
{
    if !is_activity(input, activity) {
        return Ok(false);
    }
    let early = below(activity, value);
    clause.clear();
    clause.push(early)?;
    clause.push(at_least(activity, value))?;
    Ok(true)
}

// The clause of an order that is 1.
fn fill_before(
    input: &Input,
    order: u32,
    value: u32,
    clause: &mut Vec<Literal>,
) -> Result<bool, AllocError>
    ensures { IfOk result (λ is. IsTrue is → IsConsequence input.now LIMIT clause.new.items) }
{
    let Some(o) = ordering(input, order) else {
        return Ok(false);
    };
    if !is_activity(input, o.first) || !is_activity(input, o.second) {
        return Ok(false);
    }
    let end = value.saturating_add(at(&input.durations, o.first as usize));
    clause.clear();
    clause.push(below(o.quantity, 1))?;
    clause.push(below(o.first, value))?;
    clause.push(at_least(o.second, end))?;
    Ok(true)
}

// The clause of an order that is 0.
fn fill_after(
    input: &Input,
    order: u32,
    value: u32,
    clause: &mut Vec<Literal>,
) -> Result<bool, AllocError>
    ensures { IfOk result (λ is. IsTrue is → IsConsequence input.now LIMIT clause.new.items) }
{
    let Some(o) = ordering(input, order) else {
        return Ok(false);
    };
    if !is_activity(input, o.first)
        || !is_activity(input, o.second)
        || !are_apart(input, o.first, o.second)
    {
        return Ok(false);
    }
    let end = value.saturating_add(at(&input.durations, o.second as usize));
    clause.clear();
    clause.push(at_least(o.quantity, 1))?;
    clause.push(below(o.second, value))?;
    clause.push(at_least(o.first, end))?;
    Ok(true)
}

// Whether an activity can be in a window for so long.
fn is_member(input: &Input, from: u32, until: u32, member: Member) -> bool
    requires { from ≤ until }
    ensures { IsTrue result → spec.IsMember input.now from until member }
{
    is_activity(input, member.activity)
        && member.time <= at(&input.durations, member.activity as usize)
        && member.time <= until - from
}

// Whether all members can be in a window for so long, and rise by their activities.
fn are_members(input: &Input, from: u32, until: u32, members: &[Member]) -> bool
    requires { from ≤ until }
    ensures { IsTrue result → spec.AreMembers input.now from until members.now }
{
    for (place, &member) in members.iter().enumerate() {
        let falls = place > 0 && members[place - 1].activity >= member.activity;
        if falls || !is_member(input, from, until, member) {
            return false;
        }
    }
    true
}

// Returns the energy that members need of a resource. A sum beyond all limits may be less.
fn energy(input: &Input, resource: u32, members: &[Member]) -> u64
    ensures { result ≤ spec.energy_of (problem_of input.now) resource members.now }
{
    let mut sum: u64 = 0;
    for member in members {
        let each = need(input, member.activity as usize, resource as usize) as u64;
        sum = sum.saturating_add(each.saturating_mul(member.time as u64));
    }
    sum
}

// Returns the energy that an absence takes of a resource in a window.
fn taken(absence: Absence, resource: u32, from: u32, until: u32) -> u64
    ensures { result ≤ spec.taken_in resource from until absence }
{
    if absence.resource != resource {
        return 0;
    }
    let first = absence.from.max(from);
    let behind = absence.until.min(until);
    if behind <= first {
        return 0;
    }
    (absence.amount as u64).saturating_mul((behind - first) as u64)
}

// Returns the absent energy of a resource in a window. A sum beyond all limits may be less.
fn absent(input: &Input, resource: u32, from: u32, until: u32) -> u64
    ensures { result ≤ spec.absent_in input.now resource from until }
{
    let mut sum: u64 = 0;
    for &absence in &input.absences {
        sum = sum.saturating_add(taken(absence, resource, from, until));
    }
    sum
}

// Whether a window is too short for members beside what is absent.
fn is_overloaded(input: &Input, resource: u32, from: u32, until: u32, members: &[Member]) -> bool
    ensures { IsTrue result → spec.IsOverloaded input.now resource from until members.now }
{
    if (resource as usize) >= input.capacities.len() || from >= until || until > LIMIT {
        return false;
    }
    let room = capacity(input, resource as usize).saturating_mul((until - from) as u64);
    let missing = absent(input, resource, from, until);
    let taken = energy(input, resource, members).saturating_add(missing);
    are_members(input, from, until, members) && taken > room
}

// Adds the literals of a member: it starts too early for its time in the window, or too late.
fn fill_member(
    input: &Input,
    from: u32,
    until: u32,
    member: Member,
    clause: &mut Vec<Literal>,
) -> Result<(), AllocError>
    requires member { spec.IsMember input.now from until member }
    requires window { from < until }
    requires limit { until ≤ LIMIT }
    ensures { OnOk result
        (spec.Fills input.now from until member clause.old.items clause.new.items) }
{
    let duration = at(&input.durations, member.activity as usize);
    let latest = from + member.time;
    if latest > duration {
        clause.push(below(member.activity, latest - duration))?;
    }
    clause.push(at_least(member.activity, until - member.time + 1))?;
    Ok(())
}

// The clause of a window that is too short.
fn fill_energy(
    input: &Input,
    resource: u32,
    from: u32,
    until: u32,
    members: &[Member],
    clause: &mut Vec<Literal>,
) -> Result<bool, AllocError>
    ensures { IfOk result (λ is. IsTrue is → IsConsequence input.now LIMIT clause.new.items) }
{
    if !is_overloaded(input, resource, from, until, members) {
        return Ok(false);
    }
    clause.clear();
    for &member in members {
        fill_member(input, from, until, member, clause)?;
    }
    Ok(true)
}

/// Writes the clause of a reason that isn't kept. Returns whether it is a reason.
pub fn fill(input: &Input, reason: Reason, clause: &mut Vec<Literal>) -> Result<bool, AllocError>
    ensures { IfOk result (λ is. IsTrue is → IsConsequence input.now LIMIT clause.new.items) }
{
    match reason {
        Reason::Kept(_) => Ok(false),
        Reason::Arc { arc, value } => fill_arc(input, arc, value, clause),
        Reason::End { activity, value } => fill_end(input, activity, value, clause),
        Reason::Start { activity, value } => fill_start(input, activity, value, clause),
        Reason::Before { order, value } => fill_before(input, order, value, clause),
        Reason::After { order, value } => fill_after(input, order, value, clause),
        Reason::Energy {
            resource,
            from,
            until,
            members,
        } => fill_energy(input, resource, from, until, members, clause),
    }
}
