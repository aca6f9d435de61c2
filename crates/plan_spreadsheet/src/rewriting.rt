//! The plain rows of a list of activities, and their text.

ghost use Rattle.std.specs.Prelude.{◌≡◌, [], map, IfOk, IfErr, IfSome, IsNone};
ghost use Rattle.std.specs.String.{string_bytes};
ghost use Rattle.plan_table.specs.Csv.{row_of};
ghost use Rattle.plan_table.specs.Listing.{rows_read};
ghost use Rattle.plan_table.specs.Overrides.{override_of};
ghost use Rattle.plan_spreadsheet.specs.PlainLists as lists;
ghost use Rattle.plan_spreadsheet.specs.PlainRows as spec;
ghost use Rattle.plan_spreadsheet.specs.Rows.{Spells, filled as filled_rows};

use crate::acceptance::is_refused;
use crate::assignments::with_assignments;
use crate::fault::SpreadsheetFault;
use crate::grid::write_rows;
use crate::groups::without_groups;
use crate::notes::{headers, notes};
use crate::rows::{all_emptied, filled, same_rows};
use crate::waiting::with_waits;
use plan_table::{Override, ReadError, Row, read_rows_of};
use std::alloc::{AllocError, Global};

/// A list after its rewriting: its new text, or `None` if its text stays, and the headers of the
/// columns that are ignored.
#[derive(Drop)]
pub struct Rewriting {
    pub text: Option<Vec<u8>>,
    pub ignored: Vec<String>,
}

// The plain rows, and the headers of the ignored columns.
#[derive(Drop)]
struct Plain {
    rows: Vec<Row>,
    ignored: Vec<String>,
}

/// The text stays.
pub fn unchanged(alloc: Global) -> Rewriting
    ensures text { IsNone result.text }
    ensures ignored { result.ignored.items ≡ [] }
{
    Rewriting {
        text: None,
        ignored: Vec::new(alloc),
    }
}

// Rows without notes. The first row is the header.
fn without_notes(
    alloc: Global,
    overrides: &[Override<'_>],
    rows: &[Row],
) -> Result<Plain, AllocError>
    ensures rows { IfOk result (λ p. map row_of p.rows.items
        ≡ spec.without_notes (map override_of overrides.now) (map row_of rows.now)) }
    ensures ignored { IfOk result (λ p. map string_bytes p.ignored.items
        ≡ spec.ignored_in (map override_of overrides.now) (map row_of rows.now)) }
{
    match rows {
        [first, rest @ ..] => {
            let places = notes(alloc, overrides, first, rest)?;
            Ok(Plain {
                rows: all_emptied(alloc, &places, rows)?,
                ignored: headers(alloc, first, &places)?,
            })
        }
        [] => Ok(Plain {
            rows: Vec::new(alloc),
            ignored: Vec::new(alloc),
        }),
    }
}

// Writes plain rows, unless the list has these rows already.
#[tactic(auto, using(crate::proofs::RowLemmas::rows_same))]
fn write_plain(
    alloc: Global,
    before: &[Row],
    rows: &[Row],
) -> Result<Option<Vec<u8>>, SpreadsheetFault>
    ensures some { IfOk result (λ text. IfSome text (λ text.
        Spells text.items (map row_of rows.now))) }
    ensures none { IfOk result (λ text. IsNone text → (map row_of before.now
        ≡ map row_of rows.now)) }
    ensures errors { IfErr result (lists.IsUnwritten (map row_of rows.now)) }
{
    if same_rows(before, rows) {
        return Ok(None);
    }
    let text = write_rows(alloc, rows)?;
    Ok(Some(text))
}

// Rewrites a list with these rows.
#[tactic(auto, unfolding(crate::specs::PlainRows::plain_rows, crate::specs::PlainRows::ignored_headers))]
fn rewrite_rows(
    alloc: Global,
    overrides: &[Override<'_>],
    rows: &[Row],
) -> Result<Rewriting, SpreadsheetFault>
    ensures some { IfOk result (λ r. IfSome r.text (λ text. Spells text.items
        (spec.plain_rows (map override_of overrides.now) (map row_of rows.now)))) }
    ensures none { IfOk result (λ r. IsNone r.text → (filled_rows (map row_of rows.now)
        ≡ spec.plain_rows (map override_of overrides.now) (map row_of rows.now))) }
    ensures ignored { IfOk result (λ r. map string_bytes r.ignored.items
        ≡ spec.ignored_headers (map override_of overrides.now) (map row_of rows.now)) }
    ensures errors { IfErr result (lists.IsUnwritten
        (spec.plain_rows (map override_of overrides.now) (map row_of rows.now))) }
{
    let before = filled(alloc, rows)?;
    let ungrouped = without_groups(alloc, overrides, &before)?;
    let assigned = with_assignments(alloc, overrides, &ungrouped)?;
    let plain = without_notes(alloc, overrides, &assigned)?;
    let waiting = with_waits(alloc, overrides, &plain.rows)?;
    let plain_rows = filled(alloc, &waiting)?;
    let text = write_plain(alloc, &before, &plain_rows)?;
    Ok(Rewriting {
        text,
        ignored: plain.ignored,
    })
}

// Rewrites a list of activities that is refused.
#[tactic(auto, using(crate::proofs::ListLemmas::rewritten, crate::proofs::ListLemmas::unread, crate::proofs::ListLemmas::unrewritten))]
fn rewrite(
    alloc: Global,
    overrides: &[Override<'_>],
    text: &[u8],
) -> Result<Rewriting, SpreadsheetFault>
    ensures text { IfOk result (lists.IsRewritten (map override_of overrides.now) text.now
        (rows_read text.now)) }
    ensures errors { IfErr result (lists.IsUnrewritten (map override_of overrides.now)
        (rows_read text.now)) }
{
    match read_rows_of(alloc, text) {
        Ok(rows) => {
            let rewriting = rewrite_rows(alloc, overrides, &rows)?;
            Ok(rewriting)
        }
        Err(ReadError::Memory) => Err(SpreadsheetFault::Memory),
        Err(ReadError::Fault(_)) => Ok(unchanged(alloc)),
    }
}

/// Rewrites a list of activities as its plain rows, if it is refused.
#[tactic(auto, using(crate::proofs::ListLemmas::no_text))]
pub fn plain_text(
    alloc: Global,
    overrides: &[Override<'_>],
    text: &[u8],
) -> Result<Rewriting, SpreadsheetFault>
    ensures text { IfOk result (lists.IsPlainText (map override_of overrides.now) text.now) }
    ensures refused { IfErr result (lists.IsNoText (map override_of overrides.now) text.now) }
{
    let refused = is_refused(alloc, overrides, text)?;
    if !refused {
        return Ok(unchanged(alloc));
    }
    let rewriting = rewrite(alloc, overrides, text)?;
    Ok(rewriting)
}
