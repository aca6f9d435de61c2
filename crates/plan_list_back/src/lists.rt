//! A planner's own list with the times of its activities.

ghost use Rattle.std.specs.Prelude.{◌≡◌, List, map, IfErr, IfOk};
ghost use Rattle.plan_encoding.specs.Encodings.{utf8_of};
ghost use Rattle.plan_table.specs.Csv as csv;
ghost use Rattle.plan_table.specs.Csv.{row_of};
ghost use Rattle.plan_table.specs.Overrides.{override_of};
ghost use Rattle.plan_spreadsheet.specs.Options.{options_of};
ghost use Rattle.plan_spreadsheet.specs.Rows.{Spells};
ghost use Rattle.plan_list_back.specs.ListBack as spec;
ghost use Rattle.plan_list_back.specs.Texts as texts;

use crate::columns::with_times;
use crate::fault::ListBackFault;
use crate::sameness::project_of;
use crate::text::text_with;
use crate::times::Times;
use plan_encoding::utf8_text;
use plan_psplib::LONGEST_TEXT;
use plan_spreadsheet::{Options, filled, spells};
use plan_table::{Override, ReadError, Row, read_rows_of};
use std::alloc::Global;

// Returns the error of a text that isn't read as its rows.
fn unread(made: &[u8]) -> ListBackFault
    ensures { (rows : List csv.Row) → (Spells made.now rows → ⊥)
        → texts.IsUnwritten made.now rows result }
{
    if made.len() > LONGEST_TEXT {
        ListBackFault::TooLong
    } else {
        ListBackFault::Changed
    }
}

// Why a list with times isn't read as a project.
fn changed(fault: ListBackFault) -> ListBackFault {
    match fault {
        ListBackFault::Memory => ListBackFault::Memory,
        ListBackFault::TooLong => ListBackFault::TooLong,
        ListBackFault::NoList | ListBackFault::Changed => ListBackFault::Changed,
    }
}

/// Returns the text of rows, each in its line. It has the separator of `text`, which is the text of
/// the file in UTF-8, and begins with a byte-order mark if `bytes` do, which are those of the file.
pub fn spelled_rows(
    alloc: Global,
    bytes: &[u8],
    text: &[u8],
    rows: &[Row],
) -> Result<Vec<u8>, ListBackFault>
    ensures spelled { IfOk result (λ made. made.items
        ≡ texts.text_with bytes.now text.now (map row_of rows.now)) }
    // The text is read as these rows.
    ensures read { IfOk result (λ made. Spells made.items (map row_of rows.now)) }
    ensures refused { IfErr result (texts.IsUnwritten
        (texts.text_with bytes.now text.now (map row_of rows.now)) (map row_of rows.now)) }
{
    let made = text_with(alloc, bytes, text, rows)?;
    let right = spells(alloc, &made, rows)?;
    if !right {
        return Err(unread(&made));
    }
    Ok(made)
}

// A list with the times of its activities, which are no part of the project.
#[tactic(auto, using(crate::proofs::ListBackLemmas::back))]
fn with_texts(alloc: Global, bytes: &[u8], times: &[Times<'_>]) -> Result<Vec<u8>, ListBackFault>
    ensures { IfOk result (λ made. spec.IsBack (map spec.times_of times.now) bytes.now
        made.items) }
{
    let decoded = utf8_text(alloc, bytes)?;
    let text = decoded.utf8(bytes);
    let rows = match read_rows_of(alloc, text) {
        Ok(rows) => filled(alloc, &rows)?,
        Err(ReadError::Memory) => return Err(ListBackFault::Memory),
        Err(ReadError::Fault(_)) => return Err(ListBackFault::NoList),
    };
    let rows = with_times(alloc, times, &rows)?;
    let made = spelled_rows(alloc, bytes, text, &rows)?;
    Ok(made)
}

/// Returns a list of activities as it is, with columns `start`, `finish` and `slack`.
///
/// The texts of a row are those of the first times for its line; without times they are empty. A
/// column that the list has already gets new texts, and the others follow the last header. The
/// text is in UTF-8 with the separator of the list. The file is read with `options` and
/// `overrides`.
#[tactic(auto, using(crate::proofs::ListBackLemmas::same))]
pub fn list_back(
    alloc: Global,
    options: &Options<'_>,
    overrides: &[Override<'_>],
    bytes: &[u8],
    times: &[Times<'_>],
) -> Result<Vec<u8>, ListBackFault>
    // The rows are those of the list with the times.
    ensures rows { IfOk result (λ made. spec.IsBack (map spec.times_of times.now) bytes.now
        made.items) }
    // The list means the same.
    ensures same { IfOk result (λ made. spec.SameProject (options_of options.now)
        (map override_of overrides.now) bytes.now made.items) }
{
    let before = project_of(alloc, options, overrides, bytes)?;
    let made = with_texts(alloc, bytes, times)?;
    let behind = match project_of(alloc, options, overrides, &made) {
        Ok(behind) => behind,
        Err(fault) => return Err(changed(fault)),
    };
    if before.as_slice() != behind.as_slice() {
        return Err(ListBackFault::Changed);
    }
    Ok(made)
}
