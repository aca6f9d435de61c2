//! The errors of the dates in a list.

ghost use Rattle.std.specs.Prelude.{◌≡◌, ◌++◌, IfOk, codes, option_map, string_bytes};
ghost use Rattle.std.specs.Fmt.{decimal};
ghost use Rattle.plan_errors.specs.Codes.{name_of};
ghost use Rattle.plan_errors.specs.Output.{Refuses};
ghost use Rattle.plan_errors.specs.Parts.{parts_text};
ghost use Rattle.plan_weekfile.specs.Lines as spec;
ghost use Rattle.plan_weeklist.specs.Faults.{fault_of};

use plan_documents::quoted;
use plan_errors::{About, CliFault, Code, Key, Part, refuse};
use plan_weeklist::{WeekCode, WeekFault};
use std::alloc::{AllocError, Global};
use std::fmt::Write;

// Returns the code of a check that dates fail.
fn code_of(code: WeekCode) -> Code
    ensures { result ≡ spec.dates_code code }
{
    match code {
        WeekCode::TooLong => Code::LongTable,
        WeekCode::NoResource => Code::NoListResource,
        WeekCode::NoToday => Code::NoToday,
        WeekCode::BadNumber => Code::BadInstant,
        WeekCode::Contradiction => Code::BadDates,
    }
}

// Returns a line and a word behind it.
fn lined(alloc: Global, line: u64, word: &'static str) -> Result<Vec<Part>, AllocError>
    ensures { IfOk result (λ list. parts_text list.items ≡ spec.lined line word.now) }
{
    Ok(Vec::from_array(alloc, [Part::Number(Key::Line, line), Part::Words(word)])?)
}

// Returns words and the header of a column.
fn named(alloc: Global, header: &[u8]) -> Result<Vec<Part>, AllocError>
    ensures { IfOk result (λ list. parts_text list.items ≡ spec.named header.now) }
{
    let header = String::from_utf8_lossy(alloc, header)?;
    Ok(Vec::from_array(alloc, [Part::Words("no resource"), Part::Text(header)])?)
}

// Returns what the line of an error has behind its code.
fn parts_of(alloc: Global, fault: &WeekFault) -> Result<Vec<Part>, AllocError>
    ensures { IfOk result (λ list. name_of (spec.dates_code fault.now.code) ++ parts_text list.items
        ≡ spec.dates_line (fault_of fault.now)) }
{
    match fault.code {
        WeekCode::TooLong => Ok(Vec::from_array(alloc, [Part::Words("too long")])?),
        WeekCode::NoResource => named(alloc, &fault.word),
        WeekCode::NoToday => lined(alloc, fault.line, "begun"),
        WeekCode::BadNumber => lined(alloc, fault.line, "number"),
        WeekCode::Contradiction => lined(alloc, fault.line, "dates"),
    }
}

// Returns the sentence that a word is no instant and no amount. It quotes at most 60 bytes.
fn number_sentence(alloc: Global, word: &str) -> Result<String, AllocError>
    ensures { IfOk result (λ text. string_bytes text ≡ spec.number_sentence word.now) }
{
    let word = quoted(alloc, word)?;
    let word = word.as_str();
    let mut text = String::new(alloc);
    write!(
        text,
        "\"{word}\" isn't a number from 0 to 10000000 or, with --start, a date such as 2027-05-11"
    )?;
    Ok(text)
}

// Returns the sentence that quotes a cell, unless it is empty.
fn quoted_cell(alloc: Global, cell: &[u8]) -> Result<Option<String>, AllocError>
    ensures { IfOk result (λ made. option_map string_bytes made ≡ spec.quoted_cell cell.now) }
{
    if cell.is_empty() {
        return Ok(None);
    }
    let word = String::from_utf8_lossy(alloc, cell)?;
    Ok(Some(number_sentence(alloc, word.as_str())?))
}

// Returns the detail of an error, if its cell explains it.
fn detail_of(alloc: Global, fault: &WeekFault) -> Result<Option<String>, AllocError>
    ensures { IfOk result (λ made.
        option_map string_bytes made ≡ spec.detail_by fault.now.code fault.now.word.items) }
{
    match fault.code {
        WeekCode::BadNumber => quoted_cell(alloc, &fault.word),
        WeekCode::TooLong | WeekCode::NoResource | WeekCode::NoToday | WeekCode::Contradiction => {
            Ok(None)
        }
    }
}

// Returns the error of dates without a detail.
fn plain_refusal(alloc: Global, fault: &WeekFault) -> CliFault
    ensures { Refuses (spec.TellsDates (fault_of fault.now)) result }
{
    refuse(code_of(fault.code), About::List, parts_of(alloc, fault))
}

/// Returns the error of dates: `T1`, `T14`, `T17`, `T20` or `T21`. Its detail quotes a cell that
/// isn't a number.
#[tactic(auto, using(plan_documents::proofs::RefusalLemmas::detailed_refused))]
pub fn dates_refusal(alloc: Global, fault: &WeekFault) -> CliFault
    ensures { Refuses (spec.TellsDates (fault_of fault.now)) result }
{
    match detail_of(alloc, fault) {
        Ok(detail) => plain_refusal(alloc, fault).with_detail(detail),
        Err(_) => CliFault::Memory,
    }
}
