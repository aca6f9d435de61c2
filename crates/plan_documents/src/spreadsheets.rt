//! Files that become plain lists before they are read as lists.

ghost use Rattle.std.specs.Prelude.{◌<◌, true, IfOk, IfErr, length, map};
ghost use Rattle.plan_psplib.specs.Plain.{longest_text};
ghost use Rattle.plan_errors.specs.Output.{Refuses};
ghost use Rattle.plan_spreadsheet.specs.PlainLists as lists;
ghost use Rattle.plan_table.specs.Overrides.{override_of};
ghost use Rattle.plan_documents.specs.Spreadsheets as spec;

use crate::imports::long_refusal;
use plan_encoding::{Encoding, Workbook, workbook_of};
use plan_errors::{About, CliFault, Code, refuse_words};
use plan_psplib::LONGEST_TEXT;
use plan_spreadsheet::{PlainList, SpreadsheetFault, plain_list};
use plan_table::Override;
use std::alloc::Global;

// Returns the error of a workbook of Excel 2007 and later.
fn excel_refusal(alloc: Global) -> CliFault
    ensures { Refuses (spec.TellsFault SpreadsheetFault.Excel) result }
{
    let words = "an Excel workbook: save it as CSV UTF-8";
    refuse_words(alloc, Code::Workbook, About::List, words)
}

// Returns the error of a workbook of Excel 97 to 2003.
fn old_excel_refusal(alloc: Global) -> CliFault
    ensures { Refuses (spec.TellsFault SpreadsheetFault.OldExcel) result }
{
    let words = "an Excel 97-2003 workbook: save it as CSV UTF-8";
    refuse_words(alloc, Code::Workbook, About::List, words)
}

// Returns the error of an OpenDocument spreadsheet.
fn open_document_refusal(alloc: Global) -> CliFault
    ensures { Refuses (spec.TellsFault SpreadsheetFault.OpenDocument) result }
{
    let words = "an OpenDocument spreadsheet: save it as CSV UTF-8";
    refuse_words(alloc, Code::Workbook, About::List, words)
}

// Returns the error of a project of Microsoft Project.
fn project_refusal(alloc: Global) -> CliFault
    ensures { Refuses (spec.TellsFault SpreadsheetFault.Project) result }
{
    let words = "a Microsoft Project file: save it as CSV";
    refuse_words(alloc, Code::Workbook, About::List, words)
}

/// Returns the error of a file that becomes no plain list.
pub fn spreadsheet_refusal(alloc: Global, fault: SpreadsheetFault) -> CliFault
    ensures { Refuses (spec.TellsFault fault) result }
{
    match fault {
        SpreadsheetFault::Memory => CliFault::Memory,
        SpreadsheetFault::TooLong => long_refusal(alloc),
        SpreadsheetFault::Excel => excel_refusal(alloc),
        SpreadsheetFault::OldExcel => old_excel_refusal(alloc),
        SpreadsheetFault::OpenDocument => open_document_refusal(alloc),
        SpreadsheetFault::Project => project_refusal(alloc),
    }
}

// Returns the error of a workbook.
fn book_refusal(alloc: Global, book: Workbook) -> CliFault
    ensures { Refuses (spec.TellsFault (lists.fault_of book)) result }
{
    match book {
        Workbook::Excel => excel_refusal(alloc),
        Workbook::OldExcel => old_excel_refusal(alloc),
        Workbook::OpenDocument => open_document_refusal(alloc),
        Workbook::Project => project_refusal(alloc),
    }
}

/// Returns the plain list of a file that is longer than the longest text: the file itself, unless
/// it begins like a workbook.
#[tactic(auto, using(crate::proofs::SpreadsheetLemmas::book_told))]
pub fn long_list(alloc: Global, file: &[u8]) -> Result<PlainList, CliFault>
    requires { longest_text < length file.now }
    ensures plain { IfOk result (spec.IsLong file.now) }
    ensures refused { IfErr result (Refuses (spec.TellsBook file.now)) }
{
    match workbook_of(&file[..LONGEST_TEXT]) {
        Some(book) => Err(book_refusal(alloc, book)),
        None => Ok(PlainList {
            text: None,
            encoding: Encoding::Utf8,
            ignored: Vec::new(alloc),
        }),
    }
}

// Returns the plain list of a file that isn't longer than the longest text.
#[tactic(auto, using(crate::proofs::SpreadsheetLemmas::fault_told))]
fn short_list(alloc: Global, given: &[Override<'_>], file: &[u8]) -> Result<PlainList, CliFault>
    ensures plain { IfOk result (lists.IsPlain (map override_of given.now) file.now) }
    ensures refused { IfErr result (Refuses
        (spec.TellsNoListIf true (map override_of given.now) file.now)) }
{
    match plain_list(alloc, given, file) {
        Ok(plain) => Ok(plain),
        Err(fault) => Err(spreadsheet_refusal(alloc, fault)),
    }
}

/// Returns the plain list of a file, with capacities that are given. A file that is longer than the
/// longest text stays as it is. Errors: `T1`, `T18`.
pub fn plain_of(alloc: Global, given: &[Override<'_>], file: &[u8]) -> Result<PlainList, CliFault>
    ensures plain { IfOk result (spec.IsPlainOf (map override_of given.now) file.now) }
    ensures refused { IfErr result (Refuses
        (spec.TellsNoList (map override_of given.now) file.now)) }
{
    if file.len() <= LONGEST_TEXT {
        short_list(alloc, given, file)
    } else {
        long_list(alloc, file)
    }
}
