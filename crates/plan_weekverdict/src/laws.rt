//! Laws of verdicts. The functions do nothing.

ghost use Rattle.plan_weekverdict.specs.Verdicts.{AtMostOneVerdict, PlansHaveNoViolation};

/// Starts of a week have at most one verdict.
pub fn at_most_one_week_verdict()
    ensures { AtMostOneVerdict }
{}

/// Starts are a plan exactly if they have no violation.
pub fn plans_have_no_violation()
    ensures { PlansHaveNoViolation }
{}
