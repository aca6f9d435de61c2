//! Places on a chart.

ghost use Rattle.std.specs.Prelude.{◌≡◌, ◌≤◌, ◌*◌};
ghost use Rattle.plan_sheet.specs.Place as spec;

/// Returns the place of a point of the axis: names have 330 units, the axis 1,000.
#[tactic(auto, unfolding(crate::specs::Place::place))]
pub(crate) fn place(span: u32, at: u32) -> u64
    ensures { result ≡ spec.place span at }
{
    330 + u64::from(at) * 1000 / u64::from(span.max(1))
}

/// Returns the place of a point of an axis that has `per_day` points in each of its days.
#[tactic(auto, unfolding(crate::specs::Place::place), using(crate::proofs::AxisLemmas::fine_product))]
pub(crate) fn fine_place(span: u32, per_day: u32, at: u64) -> u64
    requires few { per_day ≤ 24 }
    requires point { at ≤ 1000000000000 }
    ensures { result ≡ spec.place (span * per_day) at }
{
    330 + at * 1000 / (u64::from(span) * u64::from(per_day)).max(1)
}

/// Returns the length from one place to another, at least 3.
#[tactic(auto, unfolding(crate::specs::Place::extent))]
pub(crate) fn extent(from: u64, to: u64) -> u64
    ensures { result ≡ spec.extent from to }
{
    to.saturating_sub(from).max(3)
}
