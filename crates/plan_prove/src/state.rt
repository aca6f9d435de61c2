//! States of a search: its knowledge of the schedules that it still looks for.

ghost use Rattle.std.specs.Prelude.{◌≡◌, ◌<◌, ◌≤◌, ◌^◌, get_or, slice_index, IfSome, IfNone};
ghost use Rattle.plan_prove.specs.States as spec;
ghost use Rattle.plan_prove.specs.declared.state.Side.TheVariants.{Open};

use crate::graph::Graph;
use std::alloc::{AllocError, Global};

/// The step of a pair that goes first, if it is known.
#[derive(Debug, Clone, Copy, PartialEq, Eq, Drop)]
pub enum Side {
    Open,
    First,
    Second,
}

/// The end of a schedule from which times are measured: heads from its start, tails from its
/// finish.
#[derive(Debug, Clone, Copy, Drop)]
pub enum End {
    Start,
    Finish,
}

/// The knowledge of the schedules that are still looked for: the heads and tails of the steps, and
/// the decided sides of the pairs. No schedule starts a step before its head. A tail is the least
/// time between the end of a step and the bound on the makespan. The search alone uses `last`, the
/// index of the pair that was decided last, or the number of pairs if none was.
#[derive(Drop)]
pub struct State {
    pub heads: Vec<u32>,
    pub tails: Vec<u32>,
    pub sides: Vec<Side>,
    pub last: usize,
}

/// Returns the number at an index, 0 if there is none.
pub fn at(list: &[u32], place: u32) -> u64
    ensures value { result ≡ slice_index list.now place }
    ensures small { result < 2 ^ 32 }
{
    match list.get(place as usize) {
        Some(value) => *value as u64,
        None => 0,
    }
}

/// Returns the side at an index, open if there is none.
pub fn side_at(sides: &[Side], place: usize) -> Side
    ensures { result ≡ get_or sides.now place Open }
{
    match sides.get(place) {
        Some(side) => *side,
        None => Side::Open,
    }
}

impl State {
    ghost use Rattle.std.specs.Prelude.{◌≤◌, IfOk, IfSome, IfNone};
    ghost use Rattle.plan_prove.specs.States as spec;

    /// Returns the state in which nothing is known.
    pub fn root(alloc: Global, graph: &Graph) -> Result<State, AllocError>
        ensures { IfOk result spec.IsRoot }
    {
        let steps = graph.times.len();
        Ok(State {
            heads: vec![in alloc; 0; steps]?,
            tails: vec![in alloc; 0; steps]?,
            sides: vec![in alloc; Side::Open; graph.pairs.len()]?,
            last: graph.pairs.len(),
        })
    }

    /// Raises the head or the tail of a step to a value. Returns whether it rose, or `None` if the
    /// value isn't below the limit.
    pub fn raise(&mut self, end: End, step: u32, value: u64, limit: u32) -> Option<bool>
        ensures some { IfSome result (λ _. spec.RaisesEnd self.old self.new end step value) }
        ensures none { IfNone result (limit ≤ value) }
    {
        match end {
            End::Start => raise(&mut self.heads, step, value, limit),
            End::Finish => raise(&mut self.tails, step, value, limit),
        }
    }

    /// Returns the state with a side of a pair taken.
    pub fn with_side(self, place: usize, side: Side) -> State
        ensures { spec.IsWithSide self result place side }
    {
        let mut sides = self.sides;
        take_side(&mut sides, place, side);
        State {
            heads: self.heads,
            tails: self.tails,
            sides,
            last: place,
        }
    }

    /// Returns a copy with a side of a pair taken.
    pub fn copy_with_side(
        &self,
        alloc: Global,
        place: usize,
        side: Side,
    ) -> Result<State, AllocError>
        ensures { IfOk result (λ state. spec.IsWithSide self.now state place side) }
    {
        let mut state = State {
            heads: self.heads.clone()?,
            tails: self.tails.clone()?,
            sides: self.sides.clone()?,
            last: place,
        };
        take_side(&mut state.sides, place, side);
        Ok(state)
    }
}

/// Raises the number at an index to a value. Returns whether it rose, or `None` if the value isn't
/// below the limit.
pub fn raise(list: &mut Vec<u32>, place: u32, value: u64, limit: u32) -> Option<bool>
    ensures some { IfSome result (λ _. spec.IsRaised list.old.items list.new.items place value) }
    ensures none { IfNone result (limit ≤ value) }
{
    if value >= limit as u64 {
        return None;
    }
    if value <= at(list, place) || place as usize >= list.len() {
        return Some(false);
    }
    list[place as usize] = value as u32;
    Some(true)
}

/// Takes a side of a pair.
pub fn take_side(sides: &mut Vec<Side>, place: usize, side: Side)
    ensures { spec.TakesSide sides.old.items sides.new.items place side }
{
    if place < sides.len() {
        sides[place] = side;
    }
}
