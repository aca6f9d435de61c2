//! The index of an activity in a list.

ghost use Rattle.std.specs.Prelude.{◌≡◌, ◌-◌, ◌≤◌};

/// Returns the index of an activity in a list with one entry for each: activities are numbered
/// from 1, indices from 0.
pub fn index_of(activity: u32) -> usize
    requires { 1 ≤ activity }
    ensures { result ≡ activity - 1 }
{
    activity as usize - 1
}
