//! Laws of weeks. The functions do nothing.

ghost use Rattle.plan_week.specs.Overloads.{OverloadsLeaveNoPlan};
ghost use Rattle.plan_week.specs.WeekAnswers.{LimitsAreEnough};
ghost use Rattle.plan_week.specs.Weeks.{PlansAreFeasible, MakespansStay};

/// If nothing has happened, nothing is wished and nobody is absent, a plan of a week is a feasible
/// list of starts, with the same makespan.
pub fn plain_weeks_stay_the_same()
    ensures plans { PlansAreFeasible }
    ensures makespans { MakespansStay }
{}

/// A week in which begun work, appointments and absences alone are more than there is has no plan.
pub fn overloaded_weeks_have_no_plan()
    ensures { OverloadsLeaveNoPlan }
{}

/// A week that has a plan has one that ends by its limit. So there is no plan at all if none ends
/// by it.
pub fn limits_are_enough()
    ensures { LimitsAreEnough }
{}
