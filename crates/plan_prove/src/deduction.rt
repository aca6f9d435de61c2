//! Deductions: heads and tails along arcs, and sides of pairs that leave no room.

ghost use Rattle.std.specs.Prelude.{◌<◌, length};
ghost use Rattle.plan_prove.specs.States as spec;

use crate::cliques::bound_machines;
use crate::ends::span;
use crate::graph::{Graph, Pair};
use crate::known::{known_of, room};
use crate::queue::Queue;
use crate::state::{Side, State, at, raise, side_at, take_side};

/// The greatest number of steps that are handled in one node.
const MOST_TURNS: u32 = 1_000_000;

/// The greatest number of rounds over the machines in one node.
const MOST_ROUNDS: u32 = 1_000_000;

// The first step ends before the second starts: raises the head of the second and the tail of the
// first.
#[inline(never)]
fn part(
    graph: &Graph,
    limit: u32,
    state: &mut State,
    queue: &mut Queue,
    first: u32,
    second: u32,
) -> Option<bool>
    requires { spec.GoesBefore graph.now limit state.old first second }
    ensures { spec.Deduces graph.now limit state.old state.new result }
{
    let head = at(&state.heads, first) + at(&graph.times, first);
    let tail = at(&graph.times, second) + at(&state.tails, second);
    let later = raise(&mut state.heads, second, head, limit)?;
    let longer = raise(&mut state.tails, first, tail, limit)?;
    queue.note(second, later);
    queue.note(first, longer);
    span(graph, limit, state, first)?;
    span(graph, limit, state, second)?;
    Some(true)
}

// Does the same, but only if the head or the tail can rise.
#[inline]
fn follow(
    graph: &Graph,
    limit: u32,
    state: &mut State,
    queue: &mut Queue,
    first: u32,
    second: u32,
) -> Option<bool>
    requires { spec.GoesBefore graph.now limit state.old first second }
    ensures { spec.Deduces graph.now limit state.old state.new result }
{
    let one = known_of(graph, state, first);
    let other = known_of(graph, state, second);
    if one.end() <= other.head as u64 && other.rest() <= one.tail as u64 {
        return Some(false);
    }
    part(graph, limit, state, queue, first, second)
}

// Deduces from an open pair: if only one side has room, the pair takes it.
fn orient_pair(
    graph: &Graph,
    limit: u32,
    state: &mut State,
    queue: &mut Queue,
    place: usize,
) -> Option<bool>
    requires { place < length graph.now.pairs.items }
    ensures { spec.Deduces graph.now limit state.old state.new result }
{
    let Pair { first, second } = graph.pairs[place];
    let one = known_of(graph, state, first);
    let other = known_of(graph, state, second);
    let forth = room(limit, one, other);
    let back = room(limit, other, one);
    match (forth > 0, back > 0) {
        (true, true) => Some(false),
        (true, false) => {
            follow(graph, limit, state, queue, first, second)?;
            take_side(&mut state.sides, place, Side::First);
            Some(true)
        }
        (false, true) => {
            follow(graph, limit, state, queue, second, first)?;
            take_side(&mut state.sides, place, Side::Second);
            Some(true)
        }
        (false, false) => None,
    }
}

// Deduces from a pair, decided or open.
fn settle(
    graph: &Graph,
    limit: u32,
    state: &mut State,
    queue: &mut Queue,
    place: usize,
) -> Option<bool>
    requires { place < length graph.now.pairs.items }
    ensures { spec.Deduces graph.now limit state.old state.new result }
{
    let Pair { first, second } = graph.pairs[place];
    match side_at(&state.sides, place) {
        Side::Open => orient_pair(graph, limit, state, queue, place),
        Side::First => follow(graph, limit, state, queue, first, second),
        Side::Second => follow(graph, limit, state, queue, second, first),
    }
}

// Deduces from a rule. Rules are numbered: first the arcs, then the pairs.
fn apply(graph: &Graph, limit: u32, state: &mut State, queue: &mut Queue, rule: u32) -> Option<bool>
    ensures { spec.Deduces graph.now limit state.old state.new result }
{
    let (rule, arcs) = (rule as usize, graph.arcs.len());
    if rule < arcs {
        let Pair { first, second } = graph.arcs[rule];
        return follow(graph, limit, state, queue, first, second);
    }
    let place = rule - arcs;
    if place < graph.pairs.len() {
        settle(graph, limit, state, queue, place)
    } else {
        Some(false)
    }
}

// Deduces from all rules of a step. A rule that refutes the state is counted.
fn apply_all(
    graph: &Graph,
    limit: u32,
    state: &mut State,
    queue: &mut Queue,
    step: u32,
) -> Option<bool>
    ensures { spec.Deduces graph.now limit state.old state.new result }
{
    if step as usize >= graph.rules.len() {
        return Some(false);
    }
    for rule in &graph.rules[step as usize] {
        let Some(_) = apply(graph, limit, state, queue, *rule) else {
            queue.blame(graph, *rule);
            return None;
        };
    }
    Some(true)
}

// Deduces from the rules of the queued steps, including those that are queued meanwhile. Returns
// `None` if no schedule is left.
fn propagate(graph: &Graph, limit: u32, state: &mut State, queue: &mut Queue) -> Option<bool>
    ensures { spec.Deduces graph.now limit state.old state.new result }
{
    for _turn in 0..MOST_TURNS {
        let Some(step) = queue.pop(graph) else {
            return Some(true);
        };
        apply_all(graph, limit, state, queue, step)?;
    }
    Some(false)
}

// Deduces from the arcs and pairs, and then from the machines up to the first that raises
// something.
fn advance(graph: &Graph, limit: u32, state: &mut State, queue: &mut Queue) -> Option<bool>
    ensures { spec.Deduces graph.now limit state.old state.new result }
{
    propagate(graph, limit, state, queue)?;
    let has_risen = bound_machines(graph, limit, state, queue)?;
    Some(has_risen)
}

/// Makes all deductions from a state by arcs, pairs and machines, for the queued steps. Returns
/// `None` if no schedule is left.
pub fn deduce(graph: &Graph, limit: u32, state: &mut State, queue: &mut Queue) -> Option<bool>
    ensures { spec.Deduces graph.now limit state.old state.new result }
{
    for _round in 0..MOST_ROUNDS {
        let has_risen = advance(graph, limit, state, queue)?;
        if !has_risen {
            return Some(true);
        }
    }
    Some(false)
}
