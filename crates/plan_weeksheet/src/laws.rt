//! Laws of the rectangles of a plan. The functions do nothing.

ghost use Rattle.plan_weeksheet.specs.Uses.{DrawsUse, EndsWithPlan};

/// The use that is drawn is the needs and the absences together, from today to the end of the plan.
pub fn rectangles_draw_the_use()
    ensures { DrawsUse }
{}

/// No rectangle ends after the plan, so that the makespan of its page is that of the plan.
pub fn rectangles_end_with_the_plan()
    ensures { EndsWithPlan }
{}
