//! Activities by their ids and names.

ghost use Rattle.std.specs.Prelude.{◌≡◌, ◌++◌, IfOk, OnOk, codes, map, option_map};
ghost use Rattle.std.specs.Prelude.{string_bytes};
ghost use Rattle.std.specs.Str.Lossy.{utf8_lossy};
ghost use Rattle.plan_table.specs.Names.{name_of};
ghost use Rattle.plan_documents.specs.Labels as spec;

use plan_table::{NameLine, first_name};
use std::alloc::{AllocError, Global};
use std::fmt::Write;

// Returns an id and a name.
fn joined(alloc: Global, id: &[u8], name: &[u8]) -> Result<String, AllocError>
    ensures { IfOk result (λ text. string_bytes text
        ≡ utf8_lossy id.now ++ codes " " ++ utf8_lossy name.now) }
{
    let mut text = String::from_utf8_lossy(alloc, id)?;
    let name = String::from_utf8_lossy(alloc, name)?;
    text.push_str(" ")?;
    text.push_str(name.as_str())?;
    Ok(text)
}

// Returns the id and the name of an activity, or the one that there is.
fn id_and_name(
    alloc: Global,
    id: Option<&[u8]>,
    name: Option<&[u8]>,
) -> Result<Option<String>, AllocError>
    ensures { IfOk result (λ made. option_map string_bytes made
        ≡ spec.id_and_name (option_map (λ bytes. bytes.now) id.entry)
        (option_map (λ bytes. bytes.now) name.entry)) }
{
    match (id, name) {
        (None, None) => Ok(None),
        (None, Some(name)) => Ok(Some(String::from_utf8_lossy(alloc, name)?)),
        (Some(id), None) => Ok(Some(String::from_utf8_lossy(alloc, id)?)),
        (Some(id), Some(name)) => Ok(Some(joined(alloc, id, name)?)),
    }
}

/// Returns the id and the name of an activity among these, if it has one of them.
pub(crate) fn id_label(
    alloc: Global,
    ids: &[NameLine<'_>],
    names: &[NameLine<'_>],
    n: u32,
) -> Result<Option<String>, AllocError>
    ensures { IfOk result (λ made. option_map string_bytes made
        ≡ spec.id_label (map name_of ids.now) (map name_of names.now) n) }
{
    let id = first_name(ids, n as u64);
    let name = first_name(names, n as u64);
    id_and_name(alloc, id, name)
}

/// Appends an activity by its label, or else by its number.
pub(crate) fn push_activity(
    text: &mut String,
    n: u32,
    label: &Option<String>,
) -> Result<(), AllocError>
    ensures { OnOk result (string_bytes text.new ≡ string_bytes text.old
        ++ spec.activity_called n (option_map string_bytes label.now)) }
{
    match label {
        Some(label) => text.push_str(label.as_str()),
        None => write!(text, "activity {n}"),
    }
}
