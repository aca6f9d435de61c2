//! Names and labels.

ghost use Rattle.std.specs.Prelude.{◌≡◌, ◌++◌, IfOk, OnOk, map, string_bytes};
ghost use Rattle.plan_table.specs.Names.{name_of};
ghost use Rattle.plan_sheet.specs.Escape as escape;
ghost use Rattle.plan_sheet.specs.Names as spec;

use crate::escape::escaped;
use plan_table::{NameLine, first_name};
use std::alloc::{AllocError, Global};

/// The names for a sheet, by their numbers. The first name of a number counts.
#[derive(Clone, Copy, Drop)]
pub struct SheetNames<'a> {
    /// Those of activities, or of machines.
    pub lines: &'a [NameLine<'a>],
    /// Those of resources, or of orders.
    pub legend: &'a [NameLine<'a>],
    /// The ids of activities, which stand for their numbers. If there are ids, an activity without
    /// an id isn't shown. A job shop has none.
    pub ids: &'a [NameLine<'a>],
    /// The resources of activities, for a column of a table; empty without such a column.
    pub resources: &'a [NameLine<'a>],
    /// The predecessors of activities, for a column of a table; empty without such a column.
    pub predecessors: &'a [NameLine<'a>],
}

impl<'a> SheetNames<'a> {
    /// Returns names without ids and without columns for a table.
    pub fn plain(lines: &'a [NameLine<'a>], legend: &'a [NameLine<'a>]) -> SheetNames<'a>
        ensures { spec.names_of result
            ≡ spec.plain_names (map name_of lines.now) (map name_of legend.now) }
    {
        SheetNames {
            lines,
            legend,
            ids: &[],
            resources: &[],
            predecessors: &[],
        }
    }
}

/// Returns the first name of number `n`, or an empty text if it has none.
pub(crate) fn name_text(alloc: Global, names: &[NameLine<'_>], n: u32) -> Result<String, AllocError>
    ensures { IfOk result (λ text. string_bytes text ≡ spec.name_text (map name_of names.now) n) }
{
    match first_name(names, u64::from(n)) {
        Some(name) => String::from_utf8_lossy(alloc, name),
        None => Ok(String::new(alloc)),
    }
}

// Appends a name behind a space, or nothing if it is empty.
fn push_behind_space(text: &mut String, name: &str) -> Result<(), AllocError>
    ensures { OnOk result
        (string_bytes text.new ≡ string_bytes text.old ++ spec.behind_space name.now) }
{
    if name.len() < 1 {
        return Ok(());
    }
    text.push_str(" ")?;
    text.push_str(name)
}

/// Returns number `n`, and its name behind a space.
#[tactic(auto, unfolding(crate::specs::Names::label))]
pub(crate) fn label(alloc: Global, names: &[NameLine<'_>], n: u32) -> Result<String, AllocError>
    ensures { IfOk result (λ text. string_bytes text ≡ spec.label (map name_of names.now) n) }
{
    let name = name_text(alloc, names, n)?;
    let mut text = format!(in alloc; "{n}")?;
    push_behind_space(&mut text, &name)?;
    Ok(text)
}

/// Returns number `n`, and its name behind a space, escaped.
pub(crate) fn shown_label(
    alloc: Global,
    names: &[NameLine<'_>],
    n: u32,
) -> Result<String, AllocError>
    ensures { IfOk result (λ text. string_bytes text
        ≡ escape.escaped (spec.label (map name_of names.now) n)) }
{
    let text = label(alloc, names, n)?;
    escaped(alloc, &text)
}

/// Returns the id of number `n`, or else the number.
#[tactic(auto, unfolding(crate::specs::Names::id_text))]
pub(crate) fn id_text(alloc: Global, ids: &[NameLine<'_>], n: u32) -> Result<String, AllocError>
    ensures { IfOk result (λ text. string_bytes text ≡ spec.id_text (map name_of ids.now) n) }
{
    let id = name_text(alloc, ids, n)?;
    if id.len() < 1 {
        return format!(in alloc; "{n}");
    }
    Ok(id)
}

/// Returns the id of number `n`, or else the number, and its name behind a space.
#[tactic(auto, unfolding(crate::specs::Names::id_label))]
pub(crate) fn id_label(
    alloc: Global,
    ids: &[NameLine<'_>],
    names: &[NameLine<'_>],
    n: u32,
) -> Result<String, AllocError>
    ensures { IfOk result (λ text. string_bytes text
        ≡ spec.id_label (map name_of ids.now) (map name_of names.now) n) }
{
    let name = name_text(alloc, names, n)?;
    let mut text = id_text(alloc, ids, n)?;
    push_behind_space(&mut text, &name)?;
    Ok(text)
}

// Returns whether number `n` has an id.
fn has_id(ids: &[NameLine<'_>], n: u32) -> bool
    ensures { result ≡ spec.has_id (map name_of ids.now) n }
{
    match first_name(ids, u64::from(n)) {
        Some(_) => true,
        None => false,
    }
}

/// Returns whether number `n` is shown: it has an id, or there are no ids.
pub(crate) fn is_shown(ids: &[NameLine<'_>], n: u32) -> bool
    ensures { result ≡ spec.is_shown (map name_of ids.now) n }
{
    ids.is_empty() || has_id(ids, n)
}

/// Returns whether there are ids.
pub(crate) fn has_ids(ids: &[NameLine<'_>]) -> bool
    ensures { result ≡ spec.has_ids (map name_of ids.now) }
{
    !ids.is_empty()
}
