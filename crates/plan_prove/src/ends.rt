//! Heads and tails that a deduction raises.

ghost use Rattle.std.specs.Prelude.{IfNone};
ghost use Rattle.plan_prove.specs.States as spec;

use crate::graph::Graph;
use crate::known::known_of;
use crate::queue::Queue;
use crate::state::{End, State};

/// Returns the sum of head, time and tail of a step, or `None` if it isn't below the limit.
pub fn span(graph: &Graph, limit: u32, state: &State, step: u32) -> Option<u64>
    ensures { IfNone result (spec.IsRefuted graph.now limit state.now) }
{
    let known = known_of(graph, state, step);
    let span = known.head as u64 + known.rest();
    if span < limit as u64 {
        Some(span)
    } else {
        None
    }
}

/// Raises the head or the tail of a step to a value that holds in all schedules of the state.
pub fn raise_end(
    graph: &Graph,
    limit: u32,
    state: &mut State,
    queue: &mut Queue,
    end: End,
    step: u32,
    value: u64,
) -> Option<bool>
    requires { spec.StaysAway graph.now limit state.old end step value }
    ensures { spec.Deduces graph.now limit state.old state.new result }
{
    let has_risen = state.raise(end, step, value, limit)?;
    if !has_risen {
        return Some(false);
    }
    queue.push(step);
    span(graph, limit, state, step)?;
    Some(true)
}
