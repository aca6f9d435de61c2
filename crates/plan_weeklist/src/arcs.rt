//! The arcs of the week of a list. A wait becomes the lag of an arc.

ghost use Rattle.std.specs.Prelude.{◌≡◌, ◌≤◌, ◌++◌, [], drop, length, map, IfOk, OnOk};
ghost use Rattle.plan_table.specs.Limits.{most_rows};
ghost use Rattle.plan_table.specs.Table.{activity_of};
ghost use Rattle.plan_weeklist.specs.ListedWeeks as spec;

use plan_kernel::Arc;
use plan_table::Activity;
use std::alloc::{AllocError, Global};

// The place of the activity with a number.
fn place_of(number: u32) -> u32
    ensures { result ≡ spec.place_of number }
{
    number.saturating_sub(2)
}

// The first predecessor.
fn first_number(numbers: &[u32]) -> u32
    ensures { result ≡ spec.first_number numbers.now }
{
    match numbers {
        [number, ..] => *number,
        [] => 2,
    }
}

// An arc to activity `k` through a wait.
fn waiting_arc(k: u32, wait: &Activity) -> Arc
    ensures { result ≡ spec.waiting_arc k (activity_of wait.now) }
{
    Arc {
        from: place_of(first_number(&wait.predecessors)),
        to: k,
        lag: wait.duration,
    }
}

// The arc to activity `k` through the first one of some waits.
fn first_arc(k: u32, waits: &[Activity]) -> Arc
    ensures { result ≡ spec.first_arc k (map activity_of waits.now) }
{
    match waits {
        [wait, ..] => waiting_arc(k, wait),
        [] => Arc {
            from: 0,
            to: k,
            lag: 0,
        },
    }
}

// The activities from a place on.
#[tactic(auto, using(crate::proofs::ListedWeekLemmas::those_dropped, crate::proofs::ListedWeekLemmas::none_left))]
fn from_place(all: &[Activity], place: usize) -> &[Activity]
    ensures { map activity_of result.now ≡ drop place (map activity_of all.now) }
{
    if place < all.len() {
        &all[place..]
    } else {
        &[]
    }
}

// The arc to activity `k` through the wait at a place.
fn arc_through(all: &[Activity], k: u32, place: usize) -> Arc
    ensures { result ≡ spec.first_arc k (drop place (map activity_of all.now)) }
{
    first_arc(k, from_place(all, place))
}

// The arc to activity `k` from a predecessor.
fn arc_from(count: usize, all: &[Activity], k: u32, number: u32) -> Arc
    ensures { result ≡ spec.arc_from count (map activity_of all.now) k number }
{
    let from = place_of(number);
    if (from as usize) < count {
        return Arc {
            from,
            to: k,
            lag: 0,
        };
    }
    arc_through(all, k, from as usize)
}

// Puts the arcs to activity `k` behind others.
fn push_arcs(
    count: usize,
    all: &[Activity],
    arcs: &mut Vec<Arc>,
    k: u32,
    activity: &Activity,
) -> Result<(), AllocError>
    ensures { OnOk result (arcs.new.items ≡ arcs.old.items
        ++ spec.arcs_to count (map activity_of all.now) k (activity_of activity.now)) }
{
    for &number in &activity.predecessors {
        arcs.push(arc_from(count, all, k, number))?;
    }
    Ok(())
}

/// Returns the arcs to the activities of a week, which are the first `count` ones of all.
#[tactic(auto, unfolding(crate::specs::ListedWeeks::placed))]
pub fn arcs_of(
    alloc: Global,
    count: usize,
    all: &[Activity],
    activities: &[Activity],
) -> Result<Vec<Arc>, AllocError>
    requires { length activities.now ≤ most_rows }
    ensures { IfOk result (λ v. v.items ≡ spec.placed (spec.arcs_to count
        (map activity_of all.now)) [] 0 (map activity_of activities.now)) }
{
    let mut arcs = Vec::new(alloc);
    for (k, activity) in activities.iter().enumerate() {
        push_arcs(count, all, &mut arcs, k as u32, activity)?;
    }
    Ok(arcs)
}
