//! Refutation of a limit: a search for a schedule whose makespan is below it.

ghost use Rattle.std.specs.Prelude.{◌≡◌, ◌<◌, ◌≤◌, length, IfOk, IfNone};
ghost use Rattle.plan_prove.specs.States as spec;
ghost use Rattle.plan_prove.specs.declared.refutation.Outcome.TheVariants.{Refuted, Stopped};

use crate::branching::{Choice, choose};
use crate::deduction::deduce;
use crate::graph::Graph;
use crate::queue::Queue;
use crate::state::{Side, State};
use std::alloc::{AllocError, Global};

/// The outcome of a search.
#[derive(Drop)]
pub enum Outcome {
    /// No schedule has a makespan below the limit.
    Refuted,
    /// All pairs are decided. These are the heads.
    Leaf(Vec<u32>),
    /// The search used all its nodes, or the clock is due.
    Stopped,
}

// Pushes the two states in which a side of a pair is taken. The side to visit first is pushed last.
fn split(
    alloc: Global,
    graph: &Graph,
    limit: u32,
    state: State,
    choice: Choice,
    waiting: &mut Vec<State>,
) -> Result<(), AllocError>
    requires { choice.place < length graph.now.pairs.items }
    ensures { IfOk result (λ _.
        spec.Covers graph.now limit waiting.new.items waiting.old.items state) }
{
    let back = state.copy_with_side(alloc, choice.place, Side::Second)?;
    let forth = state.with_side(choice.place, Side::First);
    if choice.is_forth {
        waiting.push(back)?;
        waiting.push(forth)?;
    } else {
        waiting.push(forth)?;
        waiting.push(back)?;
    }
    Ok(())
}

// Pushes the two states of a split, or returns the heads of a leaf.
fn expand(
    alloc: Global,
    graph: &Graph,
    limit: u32,
    state: State,
    queue: &Queue,
    guide: &[u64],
    waiting: &mut Vec<State>,
) -> Result<Option<Vec<u32>>, AllocError>
    ensures { IfOk result (λ leaf.
        IfNone leaf (spec.Covers graph.now limit waiting.new.items waiting.old.items state)) }
{
    match choose(graph, limit, &state, queue, guide) {
        None => Ok(Some(state.heads)),
        Some(choice) => {
            split(alloc, graph, limit, state, choice, waiting)?;
            Ok(None)
        }
    }
}

// Visits a state: refutes it, pushes the two states of a split, or returns the heads of a leaf.
fn visit(
    alloc: Global,
    graph: &Graph,
    limit: u32,
    mut state: State,
    queue: &mut Queue,
    guide: &[u64],
    waiting: &mut Vec<State>,
) -> Result<Option<Vec<u32>>, AllocError>
    ensures { IfOk result (λ leaf.
        IfNone leaf (spec.Covers graph.now limit waiting.new.items waiting.old.items state)) }
{
    queue.restart(graph.pairs.get(state.last));
    let Some(_) = deduce(graph, limit, &mut state, queue) else {
        return Ok(None);
    };
    let leaf = expand(alloc, graph, limit, state, queue, guide, waiting)?;
    Ok(leaf)
}

/// Returns the states before the first visit: only the one in which nothing is known.
pub fn first_states(alloc: Global, graph: &Graph) -> Result<Vec<State>, AllocError>
    ensures { IfOk result (λ waiting. spec.AreFirstStates graph.now waiting.items) }
{
    let mut waiting = Vec::new(alloc);
    waiting.push(State::root(alloc, graph)?)?;
    Ok(waiting)
}

/// Searches the waiting states for a schedule whose makespan is below a limit, with at most `nodes`
/// nodes. The search is a depth-first branch and bound over disjunctive pairs (Carlier and Pinson
/// 1989; Brucker, Jurisch and Sievers 1994). The failures that the queue has counted in earlier
/// searches guide the choice of pairs, and the side that the guiding schedule has is visited first.
/// The search stops before a node if the queue has counted so much work that the clock is due. A
/// stopped search can be continued from the states that it leaves.
pub fn refute(
    alloc: Global,
    graph: &Graph,
    limit: u32,
    waiting: &mut Vec<State>,
    queue: &mut Queue,
    guide: &[u64],
    nodes: &mut u64,
) -> Result<Outcome, AllocError>
    ensures refuted { IfOk result (λ outcome.
        outcome ≡ Refuted → spec.AreRefuted graph.now limit waiting.old.items) }
    ensures stopped { IfOk result (λ outcome.
        outcome ≡ Stopped → spec.AreRefuted graph.now limit waiting.new.items
        → spec.AreRefuted graph.now limit waiting.old.items) }
    ensures nodes { nodes.new ≤ nodes.old }
{
    for _node in 0..*nodes {
        if queue.is_due() {
            break;
        }
        let Some(state) = waiting.pop() else {
            return Ok(Outcome::Refuted);
        };
        *nodes -= 1;
        if let Some(heads) = visit(alloc, graph, limit, state, queue, guide, waiting)? {
            return Ok(Outcome::Leaf(heads));
        }
    }
    if waiting.is_empty() {
        Ok(Outcome::Refuted)
    } else {
        Ok(Outcome::Stopped)
    }
}
