//! Priority rules.

ghost use Rattle.std.specs.Prelude.{◌≡◌, IfOk, IfErr};
ghost use Rattle.plan_sgs.specs.Keys.{rule_text, RefusesWord};

use crate::fault::SgsFault;

/// A rule that chooses among the eligible activities (Kolisch 1996). Ties go to the least number.
#[derive(Debug, Clone, Copy, PartialEq, Eq, Drop)]
pub enum Rule {
    /// `lft`: the least latest finish.
    LatestFinish,
    /// `slk`: the least total float.
    Slack,
    /// `spt`: the shortest duration.
    ShortestTime,
    /// `mts`: the most direct and indirect successors.
    MostSuccessors,
    /// `num`: the least number.
    Number,
}

impl Rule {
    /// Returns the rule of this name: `lft`, `slk`, `spt`, `mts` or `num`. Allocates nothing.
    ///
    /// Fails with [`SgsFault::UnknownRule`] for any other name.
    pub fn parse(text: &str) -> Result<Rule, SgsFault>
        ensures ok { IfOk result (λ rule. text.now ≡ rule_text rule) }
        ensures refused { IfErr result (RefusesWord text.now) }
    {
        match text {
            "lft" => Ok(Rule::LatestFinish),
            "slk" => Ok(Rule::Slack),
            "spt" => Ok(Rule::ShortestTime),
            "mts" => Ok(Rule::MostSuccessors),
            "num" => Ok(Rule::Number),
            _ => Err(SgsFault::UnknownRule),
        }
    }
}
