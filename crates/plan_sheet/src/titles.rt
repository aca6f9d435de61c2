//! The titles of bars.

ghost use Rattle.std.specs.Prelude.{◌≡◌, ◌++◌, IfOk, OnOk, map, string_bytes};
ghost use Rattle.plan_table.specs.Names.{name_of};
ghost use Rattle.plan_sheet.specs.Titles as spec;

use crate::bars::Bar;
use crate::names::id_label;
use plan_table::NameLine;
use std::alloc::{AllocError, Global};
use std::fmt::Write;

/// Appends the part of a title that names a step, or nothing for an activity.
pub(crate) fn push_step_part(text: &mut String, step: u32) -> Result<(), AllocError>
    ensures { OnOk result (string_bytes text.new ≡ string_bytes text.old ++ spec.step_part step) }
{
    if step < 1 {
        return Ok(());
    }
    write!(text, ", step {step}")
}

/// Returns the title of a bar: the id or the number, the name, and the step.
#[tactic(auto, unfolding(crate::specs::Titles::title_of))]
pub(crate) fn title_of(
    alloc: Global,
    ids: &[NameLine<'_>],
    names: &[NameLine<'_>],
    bar: Bar,
) -> Result<String, AllocError>
    ensures { IfOk result (λ text. string_bytes text
        ≡ spec.title_of (map name_of ids.now) (map name_of names.now) bar) }
{
    let mut text = id_label(alloc, ids, names, bar.number)?;
    push_step_part(&mut text, bar.step)?;
    Ok(text)
}
