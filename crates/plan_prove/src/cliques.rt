//! Deductions from the steps of each machine together.

ghost use Rattle.std.specs.Prelude.{◌<◌, length, IsTrue};
ghost use Rattle.plan_prove.specs.States as spec;

use crate::edges::{go_beyond, leave_none};
use crate::graph::Graph;
use crate::queue::Queue;
use crate::state::{End, State};

// Raises the head or the tail of a step of a clique if a hint says that it goes beyond others.
fn raise_at(
    graph: &Graph,
    limit: u32,
    state: &mut State,
    queue: &mut Queue,
    clique: &Vec<u32>,
    end: End,
    place: usize,
) -> Option<bool>
    requires { spec.IsClique graph.now clique.now }
    ensures { spec.Deduces graph.now limit state.old state.new result }
{
    match queue.hint(end, place) {
        Some(hint) => go_beyond(graph, limit, state, queue, clique, end, hint),
        None => Some(false),
    }
}

// Raises the heads of the steps of a clique that go behind others, or the tails of the steps that
// go ahead of others.
fn raise_all(
    graph: &Graph,
    limit: u32,
    state: &mut State,
    queue: &mut Queue,
    clique: &Vec<u32>,
    end: End,
) -> Option<bool>
    requires { spec.IsClique graph.now clique.now }
    ensures { spec.Deduces graph.now limit state.old state.new result }
{
    let mut any = false;
    for place in 0..clique.len() {
        let has_risen = raise_at(graph, limit, state, queue, clique, end, place)?;
        any = any | has_risen;
    }
    Some(any)
}

// Tests whether the steps of a machine leave no room below the limit. May miss a case.
fn leaves_none(
    graph: &Graph,
    limit: u32,
    state: &State,
    queue: &mut Queue,
    clique: &Vec<u32>,
    machine: usize,
) -> bool
    requires { spec.IsClique graph.now clique.now }
    ensures { IsTrue result → spec.IsRefuted graph.now limit state.now }
{
    match queue.look(limit, state, clique, machine) {
        Some(hint) => leave_none(graph, limit, state, clique, hint),
        None => false,
    }
}

// Deduces from the steps of a machine together.
fn bound_machine(
    graph: &Graph,
    limit: u32,
    state: &mut State,
    queue: &mut Queue,
    machine: usize,
) -> Option<bool>
    requires { machine < length graph.now.cliques.items }
    ensures { spec.Deduces graph.now limit state.old state.new result }
{
    let clique = &graph.cliques[machine];
    if leaves_none(graph, limit, state, queue, clique, machine) {
        return None;
    }
    let later = raise_all(graph, limit, state, queue, clique, End::Start)?;
    let longer = raise_all(graph, limit, state, queue, clique, End::Finish)?;
    Some(later | longer)
}

// Deduces from the steps of a machine together if the machine is stale.
fn bound_stale(
    graph: &Graph,
    limit: u32,
    state: &mut State,
    queue: &mut Queue,
    machine: usize,
) -> Option<bool>
    requires { machine < length graph.now.cliques.items }
    ensures { spec.Deduces graph.now limit state.old state.new result }
{
    if queue.take_stale(machine) {
        bound_machine(graph, limit, state, queue, machine)
    } else {
        Some(false)
    }
}

/// Deduces from the stale machines, up to the first that raises a head or a tail.
pub fn bound_machines(
    graph: &Graph,
    limit: u32,
    state: &mut State,
    queue: &mut Queue,
) -> Option<bool>
    ensures { spec.Deduces graph.now limit state.old state.new result }
{
    for machine in 0..graph.cliques.len() {
        let has_risen = bound_stale(graph, limit, state, queue, machine)?;
        if has_risen {
            return Some(true);
        }
    }
    Some(false)
}
