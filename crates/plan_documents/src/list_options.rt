//! Files that are read with the options of a list: the plain list that the options make of a file
//! is read in its place.

ghost use Rattle.std.specs.Prelude.{◌≡◌, true, IfOk, IfErr, map, option_map, string_bytes};
ghost use Rattle.plan_errors.specs.Output.{Refuses};
ghost use Rattle.plan_spreadsheet.specs.Options.{options_of, rename_of};
ghost use Rattle.plan_spreadsheet.specs.PreparedLists as lists;
ghost use Rattle.plan_table.specs.Overrides.{override_of};
ghost use Rattle.plan_documents.specs.ListOptions as spec;

use crate::notes::{note_line, notes_of};
use crate::spreadsheets::{long_list, spreadsheet_refusal};
use crate::table_faults::header_refusal;
use plan_errors::CliFault;
use plan_psplib::LONGEST_TEXT;
use plan_spreadsheet::{Options, OptionsFault, PlainList, Rename, plain_list_with};
use plan_table::Override;
use std::alloc::Global;

/// A file as a command reads it.
#[derive(Drop)]
pub struct Prepared {
    /// The plain list that options make of the file; `None` without options.
    pub list: Option<PlainList>,
}

impl Prepared {
    /// Returns the text that is read. `file` are the bytes of the file.
    pub fn text<'b>(&'b self, file: &'b [u8]) -> &'b [u8]
        ensures { result.now ≡ spec.text_in self.now.list file.now }
    {
        match &self.list {
            Some(list) => list.utf8(file),
            None => file,
        }
    }

    /// Returns the line of notes on the list, with capacities that are given: its encoding if that
    /// is a guess, and the headers of the ignored columns, without those that options leave out.
    pub fn notes(
        &self,
        alloc: Global,
        given: &[Override<'_>],
        file: &[u8],
    ) -> Result<Option<String>, CliFault>
        ensures { IfOk result (λ note. spec.AreNotesOn self.now.list
            (map override_of given.now) file.now (option_map string_bytes note)) }
    {
        match &self.list {
            Some(list) => Ok(note_line(alloc, list)?),
            None => notes_of(alloc, given, file),
        }
    }
}

// Returns the header of the rename with this number, or none.
fn renamed_header<'a>(renames: &[Rename<'a>], k: usize) -> &'a [u8]
    ensures { result.now ≡ spec.renamed_header (map rename_of renames.now) k }
{
    match renames.get(k) {
        Some(rename) => rename.header,
        None => b"",
    }
}

// Returns the header with this number, or none.
fn ignored_header<'a>(ignored: &[&'a [u8]], k: usize) -> &'a [u8]
    ensures { result.now ≡ spec.ignored_header (map (λ name. name.now) ignored.now) k }
{
    match ignored.get(k) {
        Some(header) => header,
        None => b"",
    }
}

/// Returns the error of a file that becomes no plain list with options.
pub fn options_refusal(alloc: Global, options: &Options<'_>, fault: OptionsFault) -> CliFault
    ensures { Refuses (spec.TellsOptions (options_of options.now) fault) result }
{
    match fault {
        OptionsFault::Plain(fault) => spreadsheet_refusal(alloc, fault),
        OptionsFault::NoRenamed(k) => header_refusal(alloc, renamed_header(options.renames, k)),
        OptionsFault::NoIgnored(k) => header_refusal(alloc, ignored_header(options.ignored, k)),
    }
}

// Returns the plain list of a file with options, if it isn't longer than the longest text.
#[tactic(auto, using(crate::proofs::ListOptionLemmas::options_told))]
fn short_list_with(
    alloc: Global,
    options: &Options<'_>,
    given: &[Override<'_>],
    file: &[u8],
) -> Result<PlainList, CliFault>
    ensures plain { IfOk result (lists.IsPlainWith (options_of options.now)
        (map override_of given.now) file.now) }
    ensures refused { IfErr result (Refuses (spec.TellsNoPlainIf true (options_of options.now)
        (map override_of given.now) file.now)) }
{
    match plain_list_with(alloc, options, given, file) {
        Ok(plain) => Ok(plain),
        Err(fault) => Err(options_refusal(alloc, options, fault)),
    }
}

// Returns the plain list of a file with options.
fn list_with(
    alloc: Global,
    options: &Options<'_>,
    given: &[Override<'_>],
    file: &[u8],
) -> Result<PlainList, CliFault>
    ensures plain { IfOk result (spec.IsPlainFrom (options_of options.now)
        (map override_of given.now) file.now) }
    ensures refused { IfErr result (Refuses (spec.TellsNoPlain (options_of options.now)
        (map override_of given.now) file.now)) }
{
    if file.len() <= LONGEST_TEXT {
        short_list_with(alloc, options, given, file)
    } else {
        long_list(alloc, file)
    }
}

/// Returns a file as a command reads it: with options its plain list, with capacities that are
/// given, and without options the file as it is. A file that is longer than the longest text stays
/// as it is. Errors: `T3` (no column has the header of an option), `T1`, `T18`.
#[tactic(auto, using(crate::proofs::ListOptionLemmas::is_prepared))]
pub fn prepare(
    alloc: Global,
    options: Option<Options<'_>>,
    given: &[Override<'_>],
    file: &[u8],
) -> Result<Prepared, CliFault>
    ensures list { IfOk result (λ p. spec.IsListBy options.entry (map override_of given.now)
        file.now p.list) }
    ensures text { IfOk result (λ p. spec.IsPrepared options.entry (map override_of given.now)
        file.now (spec.text_in p.list file.now)) }
    ensures refused { IfErr result (Refuses (spec.TellsUnprepared options.entry
        (map override_of given.now) file.now)) }
{
    match options {
        Some(options) => {
            let list = list_with(alloc, &options, given, file)?;
            Ok(Prepared { list: Some(list) })
        }
        None => Ok(Prepared { list: None }),
    }
}
