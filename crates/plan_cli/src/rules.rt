//! The schedules of projects and job shops by a priority rule.

ghost use Rattle.std.specs.Prelude.{◌≡◌, IfOk, IfErr, []};
ghost use Rattle.plan_sgs.specs.Problem.{IsActive};
ghost use Rattle.plan_shop.specs.Shop.{problem_of};
ghost use Rattle.plan_gantt.specs.ScheduleText.{IsSchedule};
ghost use Rattle.plan_gantt.specs.ShopText.{rule_starts, TellsNoRule};
ghost use Rattle.plan_errors.specs.Output.{Refuses};
ghost use Rattle.plan_cli.specs.Scheduled.{IsScheduleBy, IsShopScheduleBy, IsShowable, TellsNoRuleOf};

use plan_documents::{Plan, rule_refusal};
use plan_errors::CliFault;
use plan_sgs::{Instance, Rule, Schedule, serial};
use plan_shop::{Shop, ShopRule, giffler};
use std::alloc::Global;

// Returns the schedule of an instance by a rule.
fn schedule_by_rule(alloc: Global, instance: &Instance, rule: Rule) -> Result<Schedule, CliFault>
    ensures made { IfOk result (λ made. IsSchedule instance.now rule made.starts.items) }
    ensures showable { IfOk result (IsShowable (Plan.Project instance.now [])) }
    ensures refused { IfErr result (λ e. e ≡ CliFault.Memory) }
{
    serial(alloc, instance, rule).map_err(|_| CliFault::Memory)
}

/// Returns the schedule of an instance by the rule with this name.
pub(crate) fn project_schedule_by(
    alloc: Global,
    name: &str,
    instance: &Instance,
) -> Result<Schedule, CliFault>
    ensures starts { IfOk result (λ made. IsScheduleBy name.now instance.now made.starts.items) }
    ensures showable { IfOk result (IsShowable (Plan.Project instance.now [])) }
    ensures refused { IfErr result (Refuses (TellsNoRuleOf name.now (Plan.Project instance.now []))) }
{
    match Rule::parse(name) {
        Ok(rule) => schedule_by_rule(alloc, instance, rule),
        Err(_) => Err(rule_refusal(alloc)),
    }
}

// Returns the schedule of a job shop by a rule.
fn shop_schedule_by_rule(alloc: Global, shop: &Shop, rule: ShopRule) -> Result<Schedule, CliFault>
    ensures starts { IfOk result (λ made. made.starts.items ≡ rule_starts rule shop.now) }
    ensures active { IfOk result (λ made. IsActive (problem_of shop.now) made.starts.items) }
    ensures showable { IfOk result (IsShowable (Plan.Shop shop.now)) }
    ensures refused { IfErr result (λ e. e ≡ CliFault.Memory) }
{
    // The proof needs the shop's invariant, which this call states.
    let _machines = shop.machines();
    giffler(alloc, shop, rule).map_err(|_| CliFault::Memory)
}

/// Returns the schedule of a job shop by the rule with this name.
pub(crate) fn shop_schedule_by(alloc: Global, name: &str, shop: &Shop) -> Result<Schedule, CliFault>
    ensures starts { IfOk result (λ made. IsShopScheduleBy name.now shop.now made.starts.items) }
    ensures showable { IfOk result (IsShowable (Plan.Shop shop.now)) }
    ensures refused { IfErr result (Refuses (TellsNoRule name.now)) }
{
    match ShopRule::parse(name) {
        Ok(rule) => shop_schedule_by_rule(alloc, shop, rule),
        Err(_) => Err(rule_refusal(alloc)),
    }
}
