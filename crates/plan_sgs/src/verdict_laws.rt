//! Law of verdicts that proofs of other crates cite. The function does nothing.

ghost use Rattle.plan_sgs.specs.Verdicts.{OneVerdictIsFirst};

/// Each list of starts has exactly one first verdict.
pub fn one_verdict_is_first()
    ensures { OneVerdictIsFirst }
{}
