//! Waits: activities that stand for the lags of a list, such as `A+2d`. They are behind the
//! activities that are rows of the list.

ghost use Rattle.std.specs.Prelude.{◌≡◌, filter, length};
ghost use Rattle.plan_report.specs.Waits as spec;

use plan_net::Network;

// Tests whether an activity is a row; the first one behind the rows has the number `behind`.
fn is_row(behind: usize, j: u32) -> bool
    ensures { result ≡ spec.is_row behind j }
{
    j >= 2 && (j as usize) < behind
}

// Counts the arcs to an activity.
fn count_to(arcs: &[(u32, u32)], j: u32) -> usize
    ensures { result ≡ length (filter (spec.is_to j) arcs.now) }
{
    let mut count = 0;
    for &arc in arcs {
        if arc.1 == j {
            count += 1;
        }
    }
    count
}

// Returns the source of the first arc to an activity.
fn first_source(arcs: &[(u32, u32)], j: u32) -> Option<u32>
    ensures { result ≡ spec.first_source arcs.now j }
{
    for &arc in arcs {
        if arc.1 == j {
            return Some(arc.0);
        }
    }
    None
}

/// Returns the predecessor of an activity, if it has exactly one.
pub fn only_predecessor(network: &Network, j: u32) -> Option<u32>
    ensures { result ≡ spec.only_predecessor network.now j }
{
    let arcs = network.arcs();
    if count_to(arcs, j) == 1 {
        first_source(arcs, j)
    } else {
        None
    }
}

// Tests whether one of the arcs is from an activity to a row.
fn is_followed(behind: usize, arcs: &[(u32, u32)], j: u32) -> bool
    ensures { result ≡ spec.is_followed behind arcs.now j }
{
    for &arc in arcs {
        if arc.0 == j && is_row(behind, arc.1) {
            return true;
        }
    }
    false
}

/// Tests whether an activity is a wait: it has exactly one predecessor, which is a row, and a row
/// as a successor. The first activity behind the rows has the number `behind`.
pub fn is_wait(behind: usize, network: &Network, j: u32) -> bool
    ensures { result ≡ spec.is_wait behind network.now j }
{
    match only_predecessor(network, j) {
        Some(i) => is_row(behind, i) && is_followed(behind, network.arcs(), j),
        None => false,
    }
}

/// Returns the place among the rows of the activity that a wait is behind.
pub(crate) fn place_before(network: &Network, j: u32) -> usize
    ensures { result ≡ spec.place_before network.now j }
{
    match only_predecessor(network, j) {
        Some(i) => i.saturating_sub(2) as usize,
        None => 0,
    }
}
