//! States of activities, and numbers by their places.

ghost use Rattle.std.specs.Prelude.{◌≡◌, slice_index};
ghost use Rattle.plan_week.specs.Weeks as weeks;

use plan_week::State;

/// Whether an activity is still to be started.
pub fn is_open(state: State) -> bool
    ensures { result ≡ weeks.is_open state }
{
    match state {
        State::Open { .. } => true,
        State::Begun { .. } => false,
        State::Done { .. } => false,
    }
}

/// Returns the number at a place, 0 if there is none.
pub(crate) fn at(list: &[u32], place: usize) -> u32
    ensures { result ≡ slice_index list.now place }
{
    if place < list.len() { list[place] } else { 0 }
}
