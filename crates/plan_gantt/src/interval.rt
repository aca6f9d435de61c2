//! Intervals, and the test whether one contains an instant of a cell.

ghost use Rattle.std.specs.Prelude.{◌≡◌, ◌+◌, ◌*◌, ◌≤◌, All};
ghost use Rattle.plan_gantt.specs.Limits.{latest_end};
ghost use Rattle.plan_gantt.specs.Chart as spec;
ghost use Rattle.plan_gantt.specs.Overlaps.{overlaps};

/// An interval: `duration` instants from `start` on, in whole time units.
#[derive(Clone, Copy, Debug, PartialEq, Eq)]
pub struct Interval {
    pub start: u64,
    pub duration: u64,
}

// Tests whether an interval contains one of the `count` instants from `from` on.
fn overlaps(interval: Interval, from: u64, count: u64) -> bool
    requires instants { from + count ≤ 2 * latest_end }
    requires end { interval.start + interval.duration ≤ latest_end }
    ensures { result ≡ overlaps interval from count }
{
    count > 0
        && interval.duration > 0
        && interval.start < from + count
        && from < interval.start + interval.duration
}

/// Tests whether some instant of a cell is in one of the intervals. A cell contains `unit`
/// instants.
#[tactic(auto, using(crate::proofs::CellLemmas::marked_by_bounds))]
pub fn is_marked(unit: u64, intervals: &[Interval], cell: u64) -> bool
    requires instants { cell * unit + unit ≤ 2 * latest_end }
    requires ends { All (λ v. v.start + v.duration ≤ latest_end) intervals.now }
    ensures { result ≡ spec.is_marked unit intervals.now cell }
{
    for &interval in intervals {
        if overlaps(interval, cell * unit, unit) {
            return true;
        }
    }
    false
}
