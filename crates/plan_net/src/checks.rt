//! The first bad duration and the first bad arc.

ghost use Rattle.std.specs.Prelude.{◌≤◌, ◌↔◌, [], length, IfSome, IfNone, IsTrue};
ghost use Rattle.plan_net.specs.Network.{unlagged};
ghost use Rattle.plan_net.specs.Limits.{HasGoodArcs, HasGoodDurations};
ghost use Rattle.plan_net.specs.Refusals.{IsFirstBadArc, IsFirstBadDuration};

use super::limits::{LONGEST_DURATION, LONGEST_SUM, MOST_ACTIVITIES};

/// Returns the first activity whose duration is above 10,000, or up to which the durations add up
/// to more than 1,000,000.
pub fn first_bad_duration(durations: &[u64]) -> Option<u32>
    requires { length durations.now ≤ MOST_ACTIVITIES }
    ensures some { IfSome result (IsFirstBadDuration (unlagged durations.now [])) }
    ensures none { IfNone result (HasGoodDurations (unlagged durations.now [])) }
{
    let mut sum = 0;
    for (k, &duration) in durations.iter().enumerate() {
        if duration > LONGEST_DURATION || sum + duration > LONGEST_SUM {
            return Some(k as u32 + 1);
        }
        sum += duration;
    }
    None
}

// Tests whether `j` is one of the activities 1 to `count`.
fn is_activity(count: usize, j: u32) -> bool
    ensures { IsTrue result ↔ (1 ≤ j) × (j ≤ count) }
{
    j != 0 && j as usize <= count
}

/// Returns the first arc with an end outside 1 to the number of durations.
pub fn first_bad_arc(durations: &[u64], arcs: &[(u32, u32)]) -> Option<(u32, u32)>
    ensures some { IfSome result (IsFirstBadArc (unlagged durations.now arcs.now)) }
    ensures none { IfNone result (HasGoodArcs (unlagged durations.now arcs.now)) }
{
    let count = durations.len();
    for &(i, j) in arcs {
        if !is_activity(count, i) || !is_activity(count, j) {
            return Some((i, j));
        }
    }
    None
}
