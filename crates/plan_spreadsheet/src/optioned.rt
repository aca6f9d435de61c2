//! The list of a file with options, before it becomes a plain list.

ghost use Rattle.std.specs.Prelude.{◌≡◌, ◌⊎◌, map, IfOk, IfErr};
ghost use Rattle.plan_encoding.specs.Encodings.{utf8_of};
ghost use Rattle.plan_table.specs.Csv.{row_of};
ghost use Rattle.plan_table.specs.Listing.{rows_read};
ghost use Rattle.plan_table.specs.Overrides.{override_of};
ghost use Rattle.plan_spreadsheet.specs.declared.fault.SpreadsheetFault.TheVariants as faults;
ghost use Rattle.plan_spreadsheet.specs.declared.prepared.OptionsFault.TheVariants as fault;
ghost use Rattle.plan_spreadsheet.specs.OptionedLists as spec;
ghost use Rattle.plan_spreadsheet.specs.Options.{options_of};

use crate::fault::SpreadsheetFault;
use crate::grid::write_rows;
use crate::options::{Options, prepared};
use crate::prepared::{OptionsFault, check_headers, is_untouched};
use crate::rows::filled;
use plan_encoding::{Encoding, utf8_text};
use plan_table::{Override, ReadError, Row, read_rows_of};
use std::alloc::Global;

/// The list of a file with options, before it becomes a plain list.
#[derive(Drop)]
pub struct OptionedList {
    /// The text of the list in UTF-8; `None` if the bytes of the file stay.
    pub text: Option<Vec<u8>>,
    /// The encoding of the file; `Utf8` if its bytes stay.
    pub encoding: Encoding,
}

impl OptionedList {
    /// Returns the text that is read: the list, or `bytes`, which are those of the file.
    pub fn utf8<'a>(&'a self, bytes: &'a [u8]) -> &'a [u8]
        ensures { result.now ≡ spec.text_of self.now bytes.now }
    {
        match &self.text {
            Some(text) => text,
            None => bytes,
        }
    }
}

// The bytes of the file stay.
fn staying() -> OptionedList
    ensures { result ≡ spec.staying }
{
    OptionedList {
        text: None,
        encoding: Encoding::Utf8,
    }
}

// The list of rows, as the options say.
#[tactic(auto, using(crate::proofs::OptionedLemmas::list_made))]
fn of_rows(
    alloc: Global,
    options: &Options<'_>,
    overrides: &[Override<'_>],
    encoding: Encoding,
    rows: &[Row],
) -> Result<OptionedList, OptionsFault>
    ensures list { IfOk result (spec.IsOptionedOf (options_of options.now)
        (map override_of overrides.now) encoding (map row_of rows.now)) }
    ensures refused { IfErr result (λ error. (error ≡ fault.Plain faults.Memory)
        ⊎ spec.IsNoneOf (options_of options.now) (map row_of rows.now) error) }
{
    check_headers(options, rows)?;
    let new = prepared(alloc, options, overrides, rows)?;
    let text = write_rows(alloc, &new)?;
    Ok(OptionedList {
        text: Some(text),
        encoding,
    })
}

// The list of a file that options change.
#[tactic(auto, using(crate::proofs::OptionedLemmas::optioned_rows, crate::proofs::OptionedLemmas::optioned_text, crate::proofs::OptionedLemmas::no_rows))]
fn with_options(
    alloc: Global,
    options: &Options<'_>,
    overrides: &[Override<'_>],
    bytes: &[u8],
) -> Result<OptionedList, OptionsFault>
    ensures list { IfOk result (spec.IsOptionedBy (options_of options.now)
        (map override_of overrides.now) bytes.now (rows_read (utf8_of bytes.now))) }
    ensures refused { IfErr result (λ error. (error ≡ fault.Plain faults.Memory)
        ⊎ spec.IsNoneBy (options_of options.now) (rows_read (utf8_of bytes.now)) error) }
{
    let decoded = utf8_text(alloc, bytes)?;
    match read_rows_of(alloc, decoded.utf8(bytes)) {
        Ok(rows) => {
            let rows = filled(alloc, &rows)?;
            let list = of_rows(alloc, options, overrides, decoded.encoding, &rows)?;
            Ok(list)
        }
        Err(ReadError::Memory) => Err(OptionsFault::Plain(SpreadsheetFault::Memory)),
        Err(ReadError::Fault(_)) => Ok(staying()),
    }
}

/// Returns the list that a file becomes with options and given capacities: headers are renamed,
/// columns are left out, and durations and lags are counted in the unit. It isn't a plain list yet.
///
/// Without options the bytes of the file stay. So do the bytes of a project file, a job shop file,
/// a workbook, and a text that can't be read as rows.
#[tactic(auto, using(crate::proofs::OptionedLemmas::untouched_list, crate::proofs::OptionedLemmas::touched_list, crate::proofs::OptionedLemmas::touched_refused))]
pub fn optioned_list(
    alloc: Global,
    options: &Options<'_>,
    overrides: &[Override<'_>],
    bytes: &[u8],
) -> Result<OptionedList, OptionsFault>
    ensures list { IfOk result (spec.IsOptioned (options_of options.now)
        (map override_of overrides.now) bytes.now) }
    ensures refused { IfErr result (spec.IsNotOptioned (options_of options.now) bytes.now) }
{
    let untouched = is_untouched(alloc, options, bytes)?;
    if untouched {
        return Ok(staying());
    }
    let list = with_options(alloc, options, overrides, bytes)?;
    Ok(list)
}
