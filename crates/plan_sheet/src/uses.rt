//! The use of a resource over time.

ghost use Rattle.std.specs.Prelude.{◌≡◌, ◌≤◌, length, slice_index, EachIndex, IfOk};
ghost use Rattle.plan_net.specs.Network.{IsActivity, count_of};
ghost use Rattle.plan_gantt.specs.Limits.{latest_start};
ghost use Rattle.plan_sheet.specs.Uses as spec;

use plan_net::index_of;
use plan_sgs::Instance;
use std::alloc::{AllocError, Global};

/// An amount of a resource in use, from one instant to before another.
#[derive(Clone, Copy)]
pub struct Use {
    pub from: u32,
    pub to: u32,
    pub amount: u32,
}

// Returns the amount of a use at instant `t`.
#[tactic(auto, unfolding(crate::specs::Uses::amount_at))]
fn amount_at(t: u32, one: Use) -> u32
    ensures { result ≡ spec.amount_at t one }
{
    if one.from <= t && t < one.to {
        one.amount
    } else {
        0
    }
}

/// Returns the amount in use at instant `t`, at most 4,294,967,295.
pub(crate) fn used_at(uses: &[Use], t: u32) -> u32
    ensures { result ≡ spec.used_at uses.now t }
{
    let mut used = 0_u32;
    for &one in uses {
        used = used.saturating_add(amount_at(t, one));
    }
    used
}

/// Returns the amount in use at the instant before `t`, 0 before the first one.
#[tactic(auto, unfolding(crate::specs::Uses::used_before))]
pub(crate) fn used_before(uses: &[Use], t: u32) -> u32
    ensures { result ≡ spec.used_before uses.now t }
{
    if t < 1 { 0 } else { used_at(uses, t - 1) }
}

// Returns the use of resource `r` by activity `j`.
fn activity_use(instance: &Instance<'_>, starts: &[u64], r: u32, j: u32) -> Use
    requires activity { IsActivity instance.now.project.network j }
    requires resource { (1 ≤ r) × (r ≤ length instance.now.capacities) }
    requires starts { length starts.now ≡ count_of instance.now.project.network }
    requires limit { EachIndex starts.now (λ k. slice_index starts.now k ≤ latest_start) }
    ensures { result ≡ spec.activity_use instance.now starts.now r j }
{
    let needs = instance.needs(j);
    let start = starts[index_of(j)] as u32;
    let duration = instance.network().duration(j) as u32;
    Use {
        from: start,
        to: start + duration,
        amount: needs[r as usize - 1] as u32,
    }
}

/// Returns the uses of resource `r` by all activities of a schedule. Index `k` of `starts` is
/// activity `k + 1`.
pub(crate) fn uses_of(
    alloc: Global,
    instance: &Instance<'_>,
    starts: &[u64],
    r: u32,
) -> Result<Vec<Use>, AllocError>
    requires resource { (1 ≤ r) × (r ≤ length instance.now.capacities) }
    requires starts { length starts.now ≡ count_of instance.now.project.network }
    requires limit { EachIndex starts.now (λ k. slice_index starts.now k ≤ latest_start) }
    ensures { IfOk result (λ uses. uses.items ≡ spec.uses_of instance.now starts.now r) }
{
    let mut uses = Vec::new(alloc);
    for k in 0..instance.network().len() {
        let one = activity_use(instance, starts, r, k as u32 + 1);
        uses.push(one)?;
    }
    Ok(uses)
}
