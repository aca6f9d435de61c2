//! The notes on a list with dates.

use crate::files::WeekFile;
use plan_documents::{note_line, plain_of};
use plan_encoding::Encoding;
use plan_errors::CliFault;
use plan_spreadsheet::PlainList;
use plan_weeklist::{WeekError, WeekList, read_week_list};
use std::alloc::Global;

// Returns the encoding of a file.
fn encoding_of(alloc: Global, read: &WeekFile, file: &[u8]) -> Result<Encoding, CliFault> {
    match read.encoding() {
        Some(encoding) => Ok(encoding),
        None => Ok(plain_of(alloc, &[], file)?.encoding),
    }
}

// Reads the dates of a list, which can be read.
fn list_of(alloc: Global, now: Option<u32>, text: &[u8]) -> Result<WeekList, CliFault> {
    match read_week_list(alloc, &[], now, text) {
        Ok(list) => Ok(list),
        Err(WeekError::Memory) | Err(WeekError::Fault(_)) => Err(CliFault::Memory),
    }
}

// Returns the headers of the ignored columns of a list, without those of its dates.
fn ignored_of(alloc: Global, now: Option<u32>, text: &[u8]) -> Result<Vec<String>, CliFault> {
    let list = list_of(alloc, now, text)?;
    Ok(plain_of(alloc, &[], list.text(text))?.ignored)
}

/// Returns the line of notes on a list with dates, which was planned from `now` on: its encoding if
/// that is a guess, and the headers of the ignored columns.
pub fn week_notes(
    alloc: Global,
    read: &WeekFile,
    now: Option<u32>,
    file: &[u8],
) -> Result<Option<String>, CliFault> {
    let encoding = encoding_of(alloc, read, file)?;
    let ignored = ignored_of(alloc, now, read.text(file))?;
    let plain = PlainList {
        text: None,
        encoding,
        ignored,
    };
    Ok(note_line(alloc, &plain)?)
}
