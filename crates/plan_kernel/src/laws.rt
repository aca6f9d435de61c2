//! Laws of plans. The function does nothing.

ghost use Rattle.plan_kernel.specs.Plans.{PlansAreFeasible, CostsAreMakespans};
ghost use Rattle.plan_kernel.specs.Plans.{LeastCostsAreShortest, LowerBoundsAreOfMakespans};

/// In a problem without windows, absences and tails a plan is a feasible list of starts, its cost is
/// its makespan, a plan of least cost is a shortest list, and a lower bound of all costs is one of
/// all makespans.
pub fn plain_problems_stay_the_same()
    ensures plans { PlansAreFeasible }
    ensures costs { CostsAreMakespans }
    ensures least { LeastCostsAreShortest }
    ensures lower { LowerBoundsAreOfMakespans }
{}
