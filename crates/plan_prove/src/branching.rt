//! Choice of the pair that is decided next.

ghost use Rattle.std.specs.Prelude.{◌≡◌, ◌<◌, ◌⊎◌, length, IfSome};

use crate::graph::{Graph, Pair};
use crate::known::{known_of, room};
use crate::queue::Queue;
use crate::state::{Side, State, side_at};

/// A pair by its index, and whether the side in which its first step goes first is visited first.
#[derive(Clone, Copy, Drop)]
pub struct Choice {
    pub place: usize,
    pub is_forth: bool,
}

// An open pair by its index, with the product of the room that its sides leave and the number of
// its failures.
#[derive(Clone, Copy, Drop)]
struct Candidate {
    place: usize,
    room: u64,
    weight: u64,
}

// Returns the start of a step, 0 if the list has none.
fn start_in(guide: &[u64], step: u32) -> u64 {
    match guide.get(step as usize) {
        Some(start) => *start,
        None => 0,
    }
}

// Returns an open pair as a candidate.
fn candidate_at(graph: &Graph, limit: u32, state: &State, queue: &Queue, place: usize) -> Candidate
    requires { place < length graph.now.pairs.items }
    ensures { result.place ≡ place }
{
    let Pair { first, second } = graph.pairs[place];
    let one = known_of(graph, state, first);
    let other = known_of(graph, state, second);
    let (forth, back) = (room(limit, one, other), room(limit, other, one));
    Candidate {
        place,
        room: forth.saturating_mul(back),
        weight: queue.weight(place),
    }
}

// Tests whether one pair leaves no more room per weight than another.
fn is_as_tight(one: Candidate, other: Candidate) -> bool {
    one.room.saturating_mul(other.weight) <= other.room.saturating_mul(one.weight)
}

// Returns the tighter one of the best pair so far, if any, and another.
fn tighter(best: Option<Candidate>, other: Candidate) -> Candidate
    ensures { (result ≡ other) ⊎ (best ≡ Some result) }
{
    match best {
        Some(one) if is_as_tight(one, other) => one,
        _ => other,
    }
}

// Returns the open pair with the least room per weight.
fn tightest(graph: &Graph, limit: u32, state: &State, queue: &Queue) -> Option<Candidate>
    ensures { IfSome result (λ best. best.place < length graph.now.pairs.items) }
{
    let mut best: Option<Candidate> = None;
    for place in 0..graph.pairs.len() {
        if side_at(&state.sides, place) == Side::Open {
            let other = candidate_at(graph, limit, state, queue, place);
            best = Some(tighter(best, other));
        }
    }
    best
}

/// Returns the open pair with the least room per weight, or `None` if no pair is open. The side
/// that the guiding schedule has is visited first.
pub fn choose(
    graph: &Graph,
    limit: u32,
    state: &State,
    queue: &Queue,
    guide: &[u64],
) -> Option<Choice>
    ensures { IfSome result (λ choice. choice.place < length graph.now.pairs.items) }
{
    let place = tightest(graph, limit, state, queue)?.place;
    let Pair { first, second } = graph.pairs[place];
    Some(Choice {
        place,
        is_forth: start_in(guide, first) <= start_in(guide, second),
    })
}
