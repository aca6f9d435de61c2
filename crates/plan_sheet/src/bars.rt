//! The bars of a chart.

ghost use Rattle.std.specs.Prelude.{◌≡◌, ◌≤◌, ◌<◌, length, slice_index, EachIndex};
ghost use Rattle.plan_net.specs.Network.{IsActivity, count_of};
ghost use Rattle.plan_shop.specs.Shop.{count_steps};
ghost use Rattle.plan_gantt.specs.Limits.{latest_start};
ghost use Rattle.plan_sheet.specs.Bars as spec;

use plan_net::{Network, index_of};
use plan_shop::Shop;

/// A bar of a chart, from `from` to `to` on the axis. If both are equal, it is a milestone.
#[derive(Clone, Copy)]
pub struct Bar {
    /// The number of its line.
    pub line: u32,
    /// The number inside it: of its job in the line of a machine, and the other way round; 0 for an
    /// activity.
    pub inside: u32,
    /// The number of its activity or its job.
    pub number: u32,
    /// The number of its step in the job, 0 for an activity.
    pub step: u32,
    /// The number of its machine, 0 for an activity.
    pub machine: u32,
    pub from: u32,
    pub to: u32,
}

/// Returns the bar of activity `j`, in the line of its number. Index `k` of `starts` is activity
/// `k + 1`.
pub(crate) fn activity_bar(network: &Network, starts: &[u64], j: u32) -> Bar
    requires activity { IsActivity network.now j }
    requires starts { length starts.now ≡ count_of network.now }
    requires limit { EachIndex starts.now (λ k. slice_index starts.now k ≤ latest_start) }
    ensures { result ≡ spec.activity_bar network.now starts.now j }
{
    let start = starts[index_of(j)] as u32;
    let duration = network.duration(j) as u32;
    Bar {
        line: j,
        inside: 0,
        number: j,
        step: 0,
        machine: 0,
        from: start,
        to: start + duration,
    }
}

/// Returns the bar of step `x`, in the line of its job or of its machine. Index `x` of `starts` is
/// flat step `x`.
pub(crate) fn step_bar(shop: &Shop, starts: &[u64], by_job: bool, x: u32) -> Bar
    requires step { x < count_steps shop.now }
    requires starts { length starts.now ≡ count_steps shop.now }
    requires limit { EachIndex starts.now (λ k. slice_index starts.now k ≤ latest_start) }
    ensures { result ≡ spec.step_bar shop.now starts.now by_job x }
{
    let machines = shop.machines();
    let step = shop.step(x);
    let start = starts[x as usize] as u32;
    let job = x / machines + 1;
    Bar {
        line: if by_job { job } else { step.machine },
        inside: if by_job { step.machine } else { job },
        number: job,
        step: x % machines + 1,
        machine: step.machine,
        from: start,
        to: start + step.time as u32,
    }
}

/// Returns the number of steps of a shop.
pub(crate) fn step_count(shop: &Shop) -> u32
    ensures { result ≡ count_steps shop.now }
{
    shop.jobs() * shop.machines()
}

/// Returns the greatest end of bars, 0 if there are none.
pub(crate) fn last_end(bars: &[Bar]) -> u32
    ensures { result ≡ spec.greatest_end bars.now }
{
    let mut latest = 0;
    for bar in bars {
        latest = latest.max(bar.to);
    }
    latest
}
