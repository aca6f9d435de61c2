//! Plans as plan_sheet draws them.

ghost use Rattle.std.specs.Prelude.{◌≡◌};
ghost use Rattle.plan_sheet.specs.Layouts as layouts;
ghost use Rattle.plan_documents.specs.Documents.{count_of};
ghost use Rattle.plan_print.specs.Layouts as spec;

use plan_cli::Plan;
use plan_sheet::Layout;

/// Returns the layout of a plan: the chart of a job shop has a line for each job if `by_job`, else
/// for each machine, and only the steps that take time if `brief`.
pub(crate) fn layout_of<'p>(plan: &'p Plan<'p>, by_job: bool, brief: bool) -> Layout<'p>
    ensures layout { layouts.layout_of result ≡ spec.layout_of plan.now by_job brief }
    ensures count { layouts.count_of (layouts.layout_of result) ≡ count_of plan.now }
{
    match plan {
        Plan::Project(instance, _) => Layout::Activities(instance),
        Plan::Shop(shop) => Layout::Steps {
            shop,
            by_job,
            brief,
        },
    }
}
