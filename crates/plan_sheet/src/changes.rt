//! The instants at which the use of a resource changes.

ghost use Rattle.std.specs.Prelude.{◌≡◌, ◌≤◌, ◌<◌, ℕ};
ghost use Rattle.plan_sheet.specs.Changes as spec;

use crate::uses::Use;

// Returns the least of `next` and of the ends of a use that are after `t`.
#[tactic(auto, unfolding(crate::specs::Changes::earlier))]
fn earlier(t: u32, one: Use, next: u32) -> u32
    ensures { result ≡ spec.earlier t one next }
{
    let first = if t < one.from {
        next.min(one.from)
    } else {
        next
    };
    if t < one.to { first.min(one.to) } else { first }
}

// Returns the first instant after `t` at which a use begins or ends, at most `makespan`.
fn change_after(uses: &[Use], t: u32, makespan: u32) -> u32
    ensures { result ≡ spec.change_after t makespan uses.now }
{
    let mut next = makespan;
    for &one in uses {
        next = earlier(t, one, next);
    }
    next
}

/// Returns the first instant after `t` at which a use begins or ends, at most `makespan`.
pub(crate) fn next_change(uses: &[Use], t: u32, makespan: u32) -> u32
    requires { t < makespan }
    ensures later { t < result }
    ensures most { result ≤ makespan }
    ensures quiet { (u : ℕ) → t < u → u < result → spec.IsQuiet uses.now u }
{
    change_after(uses, t, makespan)
}
