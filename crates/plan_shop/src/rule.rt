//! Priority rules.

ghost use Rattle.std.specs.Prelude.{◌≡◌, IfOk, IfErr};
ghost use Rattle.plan_shop.specs.Names.{rule_text, RefusesWord};

use crate::fault::ShopFault;

/// A rule that chooses among the jobs that may follow (Giffler and Thompson 1960; Panwalkar and
/// Iskander 1977). Ties go to the least job number.
#[derive(Debug, Clone, Copy, PartialEq, Eq, Drop)]
pub enum ShopRule {
    /// `spt`: the shortest time of the next step.
    ShortestTime,
    /// `mwkr`: the most total time of the job's unplaced steps.
    MostWorkRemaining,
    /// `fcfs`: the next step that can start first.
    FirstCome,
}

impl ShopRule {
    /// Returns the rule of this name: `spt`, `mwkr` or `fcfs`. Allocates nothing.
    ///
    /// Fails with [`ShopFault::UnknownRule`] for any other name.
    pub fn parse(text: &str) -> Result<ShopRule, ShopFault>
        ensures ok { IfOk result (λ rule. text.now ≡ rule_text rule) }
        ensures refused { IfErr result (RefusesWord text.now) }
    {
        match text {
            "spt" => Ok(ShopRule::ShortestTime),
            "mwkr" => Ok(ShopRule::MostWorkRemaining),
            "fcfs" => Ok(ShopRule::FirstCome),
            _ => Err(ShopFault::UnknownRule),
        }
    }
}
