//! The first activity that starts before a predecessor ends.

ghost use Rattle.std.specs.Prelude.{◌≡◌, ◌++◌, ◌∷◌, [], IsFalse, IsTrue, List};
ghost use Rattle.plan_kernel.specs.declared.input.Arc.{Arc as Link};
ghost use Rattle.plan_weekverdict.specs.Verdicts as spec;

use crate::state::{at, is_open};
use plan_kernel::Arc;
use plan_week::{Week, end_of, state_of};

// Whether an activity that is open starts before the end of its predecessor plus the lag.
fn is_broken(week: &Week, starts: &[u32], arc: Arc) -> bool
    ensures yes { IsTrue result → spec.BreaksArc week.now starts.now arc }
    ensures kept { IsFalse result → spec.BreaksArc week.now starts.now arc → ⊥ }
{
    if !is_open(state_of(week, arc.to as usize)) {
        return false;
    }
    let ready = end_of(week, starts, arc.from as usize) as u128 + arc.lag as u128;
    (at(starts, arc.to as usize) as u128) < ready
}

// Returns the first of two pairs of an activity and a predecessor.
fn earlier(found: Option<(u32, u32)>, pair: (u32, u32)) -> (u32, u32)
    ensures { spec.IsEarlierPair found pair result }
{
    let Some(first) = found else {
        return pair;
    };
    if first.0 < pair.0 {
        return first;
    }
    if pair.0 < first.0 {
        return pair;
    }
    if pair.1 < first.1 { pair } else { first }
}

// Returns the first broken arc among the earlier arcs and this one.
fn with_arc(week: &Week, starts: &[u32], found: Option<(u32, u32)>, arc: Arc) -> Option<(u32, u32)>
    ensures { (arcs : List Link) → spec.IsFoundAmong week.now starts.now arcs found
        → spec.IsFoundAmong week.now starts.now (arcs ++ arc ∷ []) result }
{
    if is_broken(week, starts, arc) {
        Some(earlier(found, (arc.to, arc.from)))
    } else {
        found
    }
}

// Returns the first activity that starts before the end of a predecessor plus the lag, with its
// first such predecessor.
pub(crate) fn first_broken(week: &Week, starts: &[u32]) -> Option<(u32, u32)>
    ensures { spec.IsFoundAmong week.now starts.now week.now.arcs.items result }
{
    let mut found = None;
    for &arc in &week.arcs {
        found = with_arc(week, starts, found, arc);
    }
    found
}
