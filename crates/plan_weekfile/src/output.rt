//! The text of a plan of a list with dates.

ghost use Rattle.std.specs.Prelude.{IfErr, IfOk};
ghost use Rattle.plan_errors.specs.Output.{Refuses};
ghost use Rattle.plan_solve.specs.Progress.{HearsNothing};
ghost use Rattle.plan_weekfile.specs.Outputs as spec;

use crate::listed::listed_week;
use crate::order::WeekOrder;
use crate::plans::{plan_of, plan_text};
use plan_errors::CliFault;
use plan_solve::Watcher;
use std::alloc::Global;

/// Returns the text of a plan of a list with dates. The watcher is called during the searches, and
/// can end them. Errors: those of the list, then `S8` (no such resource), `S11` (an overload),
/// `S12` (no plan), `S13` (none found).
#[tactic(auto, using(crate::proofs::FaultLemmas::no_week, crate::proofs::FaultLemmas::no_plan, crate::proofs::WeekLemmas::shown_week))]
pub fn week_output<W: Watcher>(
    alloc: Global,
    order: &WeekOrder<'_>,
    watcher: &mut W,
    text: &[u8],
) -> Result<Vec<u8>, CliFault>
    ensures shown { IfOk result (λ shown. spec.ShowsWeek order.now text.now shown.items) }
    ensures refused { IfErr result (Refuses (spec.RefusesWeek order.now text.now)) }
    ensures told { HearsNothing (W.was_told watcher.old) (W.was_told watcher.new) }
{
    let listed = listed_week(alloc, order.capacities, order.today, text)?;
    let plan = plan_of(alloc, order, &listed, watcher)?;
    Ok(plan_text(alloc, order.format, &listed, &plan)?)
}
