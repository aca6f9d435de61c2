//! The steps of a job shop by their flat numbers.

ghost use Rattle.std.specs.Prelude.{◌≡◌, ◌+◌, ◌≤◌, ◌<◌};
ghost use Rattle.plan_shop.specs.Shop.{count_steps, machine_of, time_of};
ghost use Rattle.plan_gantt.specs.Limits.{latest_start, latest_end};
ghost use Rattle.plan_gantt.specs.ShopTable.{job_number, step_number};

use crate::bars::StepNumber;
use plan_shop::Shop;

/// Returns the number of steps.
pub(crate) fn step_count(shop: &Shop) -> u32
    ensures { result ≡ count_steps shop.now }
{
    shop.jobs() * shop.machines()
}

/// Returns the job of step `x` and its number in the job.
pub(crate) fn number_at(shop: &Shop, x: u32) -> StepNumber
    requires { x < count_steps shop.now }
    ensures job { result.job ≡ job_number shop.now x }
    ensures step { result.step ≡ step_number shop.now x }
{
    let machines = shop.machines();
    StepNumber {
        job: x / machines + 1,
        step: x % machines + 1,
    }
}

/// Returns the machine of step `x`.
pub(crate) fn machine_at(shop: &Shop, x: u32) -> u32
    requires { x < count_steps shop.now }
    ensures { result ≡ machine_of shop.now x }
{
    shop.step(x).machine
}

/// Returns the time of step `x`.
pub(crate) fn time_at(shop: &Shop, x: u32) -> u64
    requires { x < count_steps shop.now }
    ensures value { result ≡ time_of shop.now x }
    ensures short { latest_start + result ≤ latest_end }
{
    shop.step(x).time
}
