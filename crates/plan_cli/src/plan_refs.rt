//! Plans as the tables of plan_views take them.

ghost use Rattle.std.specs.Prelude.{◌≡◌};
ghost use Rattle.plan_views.specs.Plans as views;
ghost use Rattle.plan_documents.specs.Documents.{count_of, problem_of};
ghost use Rattle.plan_cli.specs.PlanRefs as spec;

use plan_documents::Plan;
use plan_views::PlanRef;

/// Returns a reference to the project or the job shop of a plan.
pub(crate) fn plan_ref<'p>(plan: &'p Plan<'p>) -> PlanRef<'p>
    ensures plan { views.plan_of result ≡ spec.viewed plan.now }
    ensures count { views.count_of (views.plan_of result) ≡ count_of plan.now }
    ensures problem { views.problem_of (views.plan_of result) ≡ problem_of plan.now }
{
    match plan {
        Plan::Project(instance, _) => PlanRef::Project(instance),
        Plan::Shop(shop) => PlanRef::Shop(shop),
    }
}
