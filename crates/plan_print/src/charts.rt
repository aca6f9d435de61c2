//! The charts of schedules as SVG.

ghost use Rattle.std.specs.Prelude.{◌≡◌, IfErr};
ghost use Rattle.plan_documents.specs.Documents.{count_of};
ghost use Rattle.plan_documents.specs.Lines.{IfText};
ghost use Rattle.plan_cli.specs.Scheduled.{CanBeShown};
ghost use Rattle.plan_print.specs.Sheets as spec;

use crate::layouts::layout_of;
use plan_cli::{CliFault, Plan, Subject, names_of_lines, names_of_rows};
use plan_documents::ids_of_rows;
use plan_sgs::Schedule;
use plan_sheet::{SheetNames, svg_file};
use std::alloc::Global;

/// Returns the chart of a plan's schedule, with the names and ids in its file, which may be made of a
/// list.
pub(crate) fn chart_text(
    alloc: Global,
    title: &str,
    listed: bool,
    subject: Subject<'_>,
    file: &[u8],
    plan: &Plan<'_>,
    schedule: &Schedule,
) -> Result<String, CliFault>
    requires { CanBeShown (count_of plan.now) schedule.now }
    ensures made { IfText result (spec.IsChart title.now listed subject.entry file.now
        plan.now schedule.now.starts.items) }
    ensures refused { IfErr result (λ e. e ≡ CliFault.Memory) }
{
    let lines = names_of_lines(alloc, subject, file)?;
    let legend = names_of_rows(alloc, subject, file)?;
    let ids = ids_of_rows(alloc, subject, file)?;
    let names = SheetNames {
        lines: &lines,
        legend: &legend,
        ids: &ids,
        resources: &[],
        predecessors: &[],
    };
    let layout = layout_of(plan, false, listed);
    Ok(svg_file(alloc, title, &names, layout, &schedule.starts)?)
}
