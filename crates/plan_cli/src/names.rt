//! `plan names`: the names of the instances in a job shop file.

ghost use Rattle.std.specs.Prelude.{IfErr};
ghost use Rattle.plan_errors.specs.Output.{Refuses};
ghost use Rattle.plan_cli.specs.NamesRun as spec;
ghost use Rattle.plan_cli.specs.TaskViews.{IsNameView};
ghost use Rattle.plan_cli.specs.Views.{IfView};

use crate::views::View;
use plan_documents::file_refusal;
use plan_errors::CliFault;
use plan_orlib::names;
use std::alloc::Global;

/// Returns the names of the instances in a file.
pub(crate) fn names_in(alloc: Global, file: &[u8]) -> Result<View, CliFault>
    ensures made { IfView result (IsNameView file.now) }
    ensures refused { IfErr result (Refuses (spec.TellsNotPlain file.now)) }
{
    let names = names(alloc, file).map_err(|fault| file_refusal(alloc, &fault, file))?;
    Ok(View::Names(names))
}
