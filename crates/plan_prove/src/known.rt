//! Known times of a step, and the room that two steps leave.

ghost use Rattle.std.specs.Prelude.{◌≡◌, ◌+◌, ◌-◌};
ghost use Rattle.plan_prove.specs.States as spec;

use crate::graph::Graph;
use crate::state::{State, at};

/// The head, the time and the tail of a step.
#[derive(Clone, Copy, Drop)]
pub struct Known {
    pub head: u32,
    pub time: u32,
    pub tail: u32,
}

/// Returns the head, the time and the tail of a step in a state.
pub fn known_of(graph: &Graph, state: &State, step: u32) -> Known
    ensures { spec.IsKnown graph.now state.now step result }
{
    Known {
        head: at(&state.heads, step) as u32,
        time: at(&graph.times, step) as u32,
        tail: at(&state.tails, step) as u32,
    }
}

impl Known {
    /// Returns the earliest end of the step.
    pub fn end(self) -> u64
        ensures { result ≡ self.head + self.time }
    {
        self.head as u64 + self.time as u64
    }

    /// Returns the least time between its start and the bound on the makespan.
    pub fn rest(self) -> u64
        ensures { result ≡ self.time + self.tail }
    {
        self.time as u64 + self.tail as u64
    }
}

/// Returns the room below the limit if one step goes before the other, 0 if there is none.
pub fn room(limit: u32, one: Known, other: Known) -> u64
    ensures { result ≡ limit - (one.head + one.time + (other.time + other.tail)) }
{
    (limit as u64).saturating_sub(one.end() + other.rest())
}
