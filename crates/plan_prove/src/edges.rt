//! Edge finding (Carlier and Pinson 1989): the steps of one machine take turns, so they may leave
//! no room, or one of them goes behind or ahead of others.

ghost use Rattle.std.specs.Prelude.{◌≡◌, ◌≤◌, ◌<◌, ◌+◌, IfSome, IsTrue, Contains, sum_by};
ghost use Rattle.plan_prove.specs.Graphs.{time_in};
ghost use Rattle.plan_prove.specs.States as spec;

use crate::ends::raise_end;
use crate::finder::Hint;
use crate::graph::Graph;
use crate::queue::Queue;
use crate::state::{End, State, at};

/// All steps of a clique but one whose heads and tails are at least two given numbers.
#[derive(Clone, Copy, Drop)]
pub struct Others {
    pub head: u64,
    pub tail: u64,
    pub but: u32,
}

// Returns the step at an index of a clique.
fn step_at(clique: &Vec<u32>, place: u32) -> Option<u32>
    ensures { IfSome result (Contains clique.now.items) }
{
    if (place as usize) < clique.len() {
        Some(clique[place as usize])
    } else {
        None
    }
}

// Tests whether a step is one of the others.
fn is_other(state: &State, others: Others, step: u32) -> bool
    ensures { result ≡ spec.is_other state.now others step }
{
    step != others.but
        && others.head <= at(&state.heads, step)
        && others.tail <= at(&state.tails, step)
}

// Returns the total time of the others of a clique. A saturated sum may be less.
fn load(graph: &Graph, state: &State, clique: &Vec<u32>, others: Others) -> u64
    ensures { result
        ≤ sum_by (time_in graph.now) (spec.others_of state.now others clique.now.items) }
{
    let mut times: u64 = 0;
    for step in clique {
        if is_other(state, others, *step) {
            times = times.saturating_add(at(&graph.times, *step));
        }
    }
    times
}

// Tests whether the times of the others and of the left-out step fill the time from `start` to
// `rest` before the limit.
fn fill(
    graph: &Graph,
    limit: u32,
    state: &State,
    clique: &Vec<u32>,
    others: Others,
    start: u64,
    rest: u64,
) -> bool
    ensures { IsTrue result → spec.Fill graph.now limit state.now clique.now others start rest }
{
    let times = load(graph, state, clique, others).saturating_add(at(&graph.times, others.but));
    start.saturating_add(times).saturating_add(rest) >= limit as u64
}

// Returns the others by their least distances from an end: near to it and far from it.
fn others_from(end: End, near: u64, far: u64, but: u32) -> Others
    ensures value { result ≡ spec.others_from end near far but }
    ensures but { result.but ≡ but }
{
    match end {
        End::Start => Others {
            head: near,
            tail: far,
            but,
        },
        End::Finish => Others {
            head: far,
            tail: near,
            but,
        },
    }
}

// Tests whether the left-out step goes behind all others because none of them can be last, or ahead
// of them because none can be first.
fn is_beyond(
    graph: &Graph,
    limit: u32,
    state: &State,
    clique: &Vec<u32>,
    end: End,
    others: Others,
) -> bool
    requires clique { spec.IsClique graph.now clique.now }
    requires there { Contains clique.now.items others.but }
    ensures { IsTrue result → spec.GoesBeyond graph.now limit state.now clique.now end others }
{
    match end {
        End::Start => {
            let start = others.head.min(at(&state.heads, others.but));
            fill(graph, limit, state, clique, others, start, others.tail)
        }
        End::Finish => {
            let rest = others.tail.min(at(&state.tails, others.but));
            fill(graph, limit, state, clique, others, others.head, rest)
        }
    }
}

/// Tests whether steps of a clique leave no room below the limit.
pub fn leave_none(graph: &Graph, limit: u32, state: &State, clique: &Vec<u32>, hint: Hint) -> bool
    requires { spec.IsClique graph.now clique.now }
    ensures { IsTrue result → spec.IsRefuted graph.now limit state.now }
{
    let Some(but) = step_at(clique, hint.place) else {
        return false;
    };
    let (head, tail) = (hint.near as u64, hint.far as u64);
    let start = head.min(at(&state.heads, but));
    let rest = tail.min(at(&state.tails, but));
    fill(
        graph,
        limit,
        state,
        clique,
        Others { head, tail, but },
        start,
        rest,
    )
}

/// For `End::Start`, raises the head of a step that goes behind others to their end. For
/// `End::Finish`, raises the tail of a step that goes ahead of others to the time that they take
/// after it.
pub fn go_beyond(
    graph: &Graph,
    limit: u32,
    state: &mut State,
    queue: &mut Queue,
    clique: &Vec<u32>,
    end: End,
    hint: Hint,
) -> Option<bool>
    requires { spec.IsClique graph.now clique.now }
    ensures { spec.Deduces graph.now limit state.old state.new result }
{
    let Some(but) = step_at(clique, hint.place) else {
        return Some(false);
    };
    let (near, far, from) = (hint.near as u64, hint.far as u64, hint.from as u64);
    let last = others_from(end, from, far, but);
    let times = load(graph, state, clique, last);
    if from < near || times == 0 {
        return Some(false);
    }
    let others = others_from(end, near, far, but);
    if !is_beyond(graph, limit, state, clique, end, others) {
        return Some(false);
    }
    let value = from.saturating_add(times);
    raise_end(graph, limit, state, queue, end, but, value)
}
