//! The plain list that a file becomes with options.

ghost use Rattle.std.specs.Prelude.{◌≡◌, ◌⊎◌, map, IfOk, IfErr};
ghost use Rattle.plan_encoding.specs.Encodings.{utf8_of};
ghost use Rattle.plan_table.specs.Csv.{row_of};
ghost use Rattle.plan_table.specs.Kinds.{Decides};
ghost use Rattle.plan_table.specs.Listing.{rows_read};
ghost use Rattle.plan_table.specs.Overrides.{override_of};
ghost use Rattle.plan_spreadsheet.specs.declared.fault.SpreadsheetFault.TheVariants as faults;
ghost use Rattle.plan_spreadsheet.specs.declared.prepared.OptionsFault.TheVariants as fault;
ghost use Rattle.plan_spreadsheet.specs.Options.{options_of};
ghost use Rattle.plan_spreadsheet.specs.PlainLists.{IsPlain};
ghost use Rattle.plan_spreadsheet.specs.PreparedLists as spec;

use crate::fault::SpreadsheetFault;
use crate::grid::write_rows;
use crate::list::{PlainList, plain_list};
use crate::options::{Options, are_none, missing_ignored, missing_rename, prepared};
use crate::rows::filled;
use plan_encoding::{Encoding, utf8_text, workbook_of};
use plan_table::{Override, ReadError, Row, is_plan_file, read_rows_of};
use std::alloc::{AllocError, Global};

/// Why there is no plain list with options.
#[derive(Clone, Copy, Debug, PartialEq, Eq)]
pub enum OptionsFault {
    /// The error without options, or of the list that the options make.
    Plain(SpreadsheetFault),
    /// No column has the header of the rename with this number, from 0 (T3).
    NoRenamed(usize),
    /// No column has the header to leave out with this number, from 0 (T3).
    NoIgnored(usize),
}

impl From<AllocError> for OptionsFault {
    ghost from_gives = { λ _ first. first ≡ fault.Plain faults.Memory };

    fn from(_error: AllocError) -> Self {
        OptionsFault::Plain(SpreadsheetFault::Memory)
    }
}

impl From<SpreadsheetFault> for OptionsFault {
    ghost from_gives = { λ error first. first ≡ fault.Plain error };

    fn from(error: SpreadsheetFault) -> Self {
        OptionsFault::Plain(error)
    }
}

/// Whether options change nothing.
#[tactic(auto, using(crate::proofs::PreparedLemmas::untouched_none, crate::proofs::PreparedLemmas::untouched_file, crate::proofs::PreparedLemmas::untouched_book, crate::proofs::PreparedLemmas::touched))]
pub(crate) fn is_untouched(
    alloc: Global,
    options: &Options<'_>,
    bytes: &[u8],
) -> Result<bool, AllocError>
    ensures { IfOk result (λ is. Decides is (spec.IsUntouched (options_of options.now)
        bytes.now)) }
{
    if are_none(options) {
        return Ok(true);
    }
    let is_file = is_plan_file(alloc, bytes)?;
    if is_file {
        return Ok(true);
    }
    match workbook_of(bytes) {
        Some(_) => Ok(true),
        None => Ok(false),
    }
}

/// Checks that no header is missing.
pub(crate) fn check_headers(options: &Options<'_>, rows: &[Row]) -> Result<(), OptionsFault>
    ensures has { IfOk result (λ _. spec.HasHeaders (options_of options.now)
        (map row_of rows.now)) }
    ensures missing { IfErr result (spec.IsMissingIn (options_of options.now)
        (map row_of rows.now)) }
{
    if let Some(k) = missing_rename(rows, options.renames) {
        return Err(OptionsFault::NoRenamed(k));
    }
    match missing_ignored(rows, options.ignored) {
        Some(k) => Err(OptionsFault::NoIgnored(k)),
        None => Ok(()),
    }
}

// The plain list of a file without options.
fn without(
    alloc: Global,
    overrides: &[Override<'_>],
    bytes: &[u8],
) -> Result<PlainList, OptionsFault>
    ensures plain { IfOk result (IsPlain (map override_of overrides.now) bytes.now) }
    ensures refused { IfErr result (spec.IsNoPlainText (map override_of overrides.now)
        bytes.now) }
{
    match plain_list(alloc, overrides, bytes) {
        Ok(plain) => Ok(plain),
        Err(error) => Err(OptionsFault::Plain(error)),
    }
}

// The plain list of a text, in the encoding of the file that the text is from.
fn of_file(plain: PlainList, encoding: Encoding, text: Vec<u8>) -> PlainList
    ensures { result ≡ spec.of_file plain encoding text }
{
    let PlainList {
        text: new,
        encoding: _,
        ignored,
    } = plain;
    match new {
        Some(new) => PlainList {
            text: Some(new),
            encoding,
            ignored,
        },
        None => PlainList {
            text: Some(text),
            encoding,
            ignored,
        },
    }
}

// The plain list of rows, as the options say.
#[tactic(auto, using(crate::proofs::PreparedLemmas::no_list, crate::proofs::PreparedLemmas::no_room))]
fn of_rows(
    alloc: Global,
    options: &Options<'_>,
    overrides: &[Override<'_>],
    encoding: Encoding,
    rows: &[Row],
) -> Result<PlainList, OptionsFault>
    ensures list { IfOk result (λ p. spec.IsPreparedList (options_of options.now)
        (map override_of overrides.now) encoding (map row_of rows.now) p) }
    ensures refused { IfErr result (λ error. (error ≡ fault.Plain faults.Memory)
        ⊎ spec.IsNoList (options_of options.now) (map override_of overrides.now)
        (map row_of rows.now) error) }
{
    check_headers(options, rows)?;
    let new = prepared(alloc, options, overrides, rows)?;
    let text = write_rows(alloc, &new)?;
    let plain = without(alloc, overrides, &text)?;
    Ok(of_file(plain, encoding, text))
}

// The plain list of a file that options change.
#[tactic(auto, using(crate::proofs::PreparedLemmas::prepared_rows, crate::proofs::PreparedLemmas::prepared_text, crate::proofs::PreparedLemmas::no_rows, crate::proofs::PreparedLemmas::no_text))]
fn with_options(
    alloc: Global,
    options: &Options<'_>,
    overrides: &[Override<'_>],
    bytes: &[u8],
) -> Result<PlainList, OptionsFault>
    ensures list { IfOk result (spec.IsPreparedBy (options_of options.now)
        (map override_of overrides.now) bytes.now (rows_read (utf8_of bytes.now))) }
    ensures refused { IfErr result (λ error. (error ≡ fault.Plain faults.Memory)
        ⊎ spec.IsNoPlainBy (options_of options.now) (map override_of overrides.now) bytes.now
        (rows_read (utf8_of bytes.now)) error) }
{
    let decoded = utf8_text(alloc, bytes)?;
    match read_rows_of(alloc, decoded.utf8(bytes)) {
        Ok(rows) => {
            let rows = filled(alloc, &rows)?;
            let list = of_rows(alloc, options, overrides, decoded.encoding, &rows)?;
            Ok(list)
        }
        Err(ReadError::Memory) => Err(OptionsFault::Plain(SpreadsheetFault::Memory)),
        Err(ReadError::Fault(_)) => without(alloc, overrides, bytes),
    }
}

/// Returns the plain list that a file becomes with options and given capacities.
///
/// Without options it is that of `plain_list`, and so it is for a project file, a job shop file and
/// a workbook. Otherwise the options change the rows of the list first: headers are renamed,
/// columns are left out, and durations and lags are counted in the unit. T1 if the text of these
/// rows, or that of the plain list, has more than 1,048,576 bytes.
#[tactic(auto, using(crate::proofs::PreparedLemmas::untouched_list, crate::proofs::PreparedLemmas::touched_list, crate::proofs::PreparedLemmas::keeps_plain, crate::proofs::PreparedLemmas::untouched_refused, crate::proofs::PreparedLemmas::touched_refused))]
pub fn plain_list_with(
    alloc: Global,
    options: &Options<'_>,
    overrides: &[Override<'_>],
    bytes: &[u8],
) -> Result<PlainList, OptionsFault>
    ensures plain { IfOk result (spec.IsPlainWith (options_of options.now)
        (map override_of overrides.now) bytes.now) }
    // Without options the list means the same.
    ensures none { IfOk result (spec.KeepsPlain (options_of options.now)
        (map override_of overrides.now) bytes.now) }
    ensures refused { IfErr result (spec.IsNoPlainWith (options_of options.now)
        (map override_of overrides.now) bytes.now) }
{
    let untouched = is_untouched(alloc, options, bytes)?;
    if untouched {
        let list = without(alloc, overrides, bytes)?;
        return Ok(list);
    }
    let list = with_options(alloc, options, overrides, bytes)?;
    Ok(list)
}
