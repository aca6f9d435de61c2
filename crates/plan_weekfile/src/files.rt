//! The file of a list with dates, with the options of lists.

ghost use Rattle.std.specs.Prelude.{◌≡◌, [], IfOk, IfErr};
ghost use Rattle.plan_errors.specs.Output.{Refuses};
ghost use Rattle.plan_weekfile.specs.Files as spec;

use plan_documents::options_refusal;
use plan_encoding::Encoding;
use plan_errors::CliFault;
use plan_psplib::LONGEST_TEXT;
use plan_spreadsheet::{OptionedList, Options, optioned_list};
use std::alloc::Global;

/// A file as a list with dates is read: with the options of lists.
#[derive(Drop)]
pub struct WeekFile {
    /// The list that options make of the file; `None` without options.
    pub list: Option<OptionedList>,
}

impl WeekFile {
    /// Returns the text that is read. `file` are the bytes of the file.
    pub fn text<'b>(&'b self, file: &'b [u8]) -> &'b [u8]
        ensures { result.now ≡ spec.text_in self.now.list file.now }
    {
        match &self.list {
            Some(list) => list.utf8(file),
            None => file,
        }
    }

    // Returns the encoding of the file, if options have made a list of it.
    pub(crate) fn encoding(&self) -> Option<Encoding> {
        match &self.list {
            Some(
                OptionedList {
                    text: Some(_),
                    encoding,
                },
            ) => Some(*encoding),
            _ => None,
        }
    }
}

// Returns the list of a file with options, if it isn't longer than the longest text.
#[tactic(auto, using(crate::proofs::FileLemmas::no_file))]
fn list_with(
    alloc: Global,
    options: &Options<'_>,
    file: &[u8],
) -> Result<Option<OptionedList>, CliFault>
    ensures list { IfOk result (spec.IsOptionedFile options.now file.now) }
    ensures refused { IfErr result (Refuses (spec.TellsNoFile options.now file.now)) }
{
    if file.len() > LONGEST_TEXT {
        return Ok(None);
    }
    match optioned_list(alloc, options, &[], file) {
        Ok(list) => Ok(Some(list)),
        Err(fault) => Err(options_refusal(alloc, options, fault)),
    }
}

/// Returns a file as a list with dates is read: with options the list that they make of it, before
/// it becomes a plain list. A file that is longer than the longest text stays as it is. Errors:
/// `T3` (no column has the header of an option), `T1`.
pub fn week_file(
    alloc: Global,
    options: Option<Options<'_>>,
    file: &[u8],
) -> Result<WeekFile, CliFault>
    ensures list { IfOk result (λ made. spec.IsWeekFile options.entry file.now made.list) }
    ensures refused { IfErr result (Refuses (spec.TellsNoWeekFile options.entry file.now)) }
{
    match options {
        Some(options) => {
            let list = list_with(alloc, &options, file)?;
            Ok(WeekFile { list })
        }
        None => Ok(WeekFile { list: None }),
    }
}
