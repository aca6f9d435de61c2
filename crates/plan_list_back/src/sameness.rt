//! Files that are read as the same project.

ghost use Rattle.std.specs.Prelude.{◌≡◌, Ok, map, IfOk};
ghost use Rattle.plan_table.specs.Overrides.{override_of};
ghost use Rattle.plan_spreadsheet.specs.Options.{options_of};
ghost use Rattle.plan_table.specs.Listing.{table_read_with};
ghost use Rattle.plan_table.specs.ProjectText.{project_text as project};
ghost use Rattle.plan_spreadsheet.specs.PreparedLists.{IsPlainWith};
ghost use Rattle.plan_list_back.specs.ListBack as spec;

use crate::fault::ListBackFault;
use plan_spreadsheet::{Options, OptionsFault, PlainList, SpreadsheetFault, plain_list_with};
use plan_table::{Override, ReadError, Table, TextFault, project_text, read_sound_table};
use std::alloc::Global;

// The plain list of a file.
fn plain_of(
    alloc: Global,
    options: &Options<'_>,
    overrides: &[Override<'_>],
    bytes: &[u8],
) -> Result<PlainList, ListBackFault>
    ensures { IfOk result (IsPlainWith (options_of options.now) (map override_of overrides.now)
        bytes.now) }
{
    match plain_list_with(alloc, options, overrides, bytes) {
        Ok(plain) => Ok(plain),
        Err(OptionsFault::Plain(SpreadsheetFault::Memory)) => Err(ListBackFault::Memory),
        Err(_) => Err(ListBackFault::NoList),
    }
}

// The table of a text, whose needs may be above its capacities.
fn table_of(alloc: Global, overrides: &[Override<'_>], text: &[u8]) -> Result<Table, ListBackFault>
    ensures { IfOk result (λ t. table_read_with (map override_of overrides.now) text.now ≡ Ok t) }
{
    match read_sound_table(alloc, overrides, text) {
        Ok(table) => Ok(table),
        Err(ReadError::Memory) => Err(ListBackFault::Memory),
        Err(ReadError::Fault(_)) => Err(ListBackFault::NoList),
    }
}

// The project file of a table.
fn text_of(alloc: Global, table: &Table) -> Result<Vec<u8>, ListBackFault>
    ensures { IfOk result (λ text. text.items ≡ project table.now) }
{
    match project_text(alloc, table) {
        Ok(text) => Ok(text.into_bytes()),
        Err(TextFault::TooLong) => Err(ListBackFault::TooLong),
        Err(TextFault::Memory) => Err(ListBackFault::Memory),
    }
}

/// Returns the table of a list of activities, with options and with capacities that are given. Its
/// needs may be above its capacities.
#[tactic(auto, using(crate::proofs::ListBackLemmas::read_as))]
pub fn list_table(
    alloc: Global,
    options: &Options<'_>,
    overrides: &[Override<'_>],
    bytes: &[u8],
) -> Result<Table, ListBackFault>
    ensures read { IfOk result (spec.IsReadAs (options_of options.now)
        (map override_of overrides.now) bytes.now) }
{
    let plain = plain_of(alloc, options, overrides, bytes)?;
    let table = table_of(alloc, overrides, plain.utf8(bytes))?;
    Ok(table)
}

/// Returns the project file of a list of activities.
#[tactic(auto, using(crate::proofs::ListBackLemmas::project_of_file))]
pub fn project_of(
    alloc: Global,
    options: &Options<'_>,
    overrides: &[Override<'_>],
    bytes: &[u8],
) -> Result<Vec<u8>, ListBackFault>
    ensures { IfOk result (λ text. spec.IsProjectOf (options_of options.now)
        (map override_of overrides.now) bytes.now text.items) }
{
    let table = list_table(alloc, options, overrides, bytes)?;
    let text = text_of(alloc, &table)?;
    Ok(text)
}
