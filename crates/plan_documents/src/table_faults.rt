//! The errors of a planner's table as values.

ghost use Rattle.std.specs.Prelude.{◌≡◌, ◌++◌, ◌∷◌, IfOk, codes, option_map, string_bytes};
ghost use Rattle.std.specs.Fmt.{decimal};
ghost use Rattle.plan_errors.specs.Codes.{name_of};
ghost use Rattle.plan_errors.specs.Faults.{IsAbout};
ghost use Rattle.plan_errors.specs.Output.{Refuses};
ghost use Rattle.plan_errors.specs.Parts.{parts_text};
ghost use Rattle.plan_table.specs.Reading.{fault_of};
ghost use Rattle.plan_documents.specs.Contents.{KnowsFile};
ghost use Rattle.plan_documents.specs.ImportRun.{TellsTable};
ghost use Rattle.plan_documents.specs.Refusals.{table_code, table_subject};
ghost use Rattle.plan_documents.specs.TableFaultText as spec;

use crate::contents::contents_of;
use crate::quotes::quoted;
use plan_errors::{About, CliFault, Code, Key, Part, refuse};
use plan_table::{TableCode, TableFault};
use std::alloc::{AllocError, Global};
use std::fmt::Write;

// Returns the code of a check that a list fails.
fn code_of(code: TableCode) -> Code
    ensures { result ≡ table_code code }
{
    match code {
        TableCode::TooLong => Code::LongTable,
        TableCode::NotText => Code::NoTableText,
        TableCode::NoDuration => Code::NoDurations,
        TableCode::ColumnTwice => Code::ColumnTwice,
        TableCode::BadDuration => Code::BadDuration,
        TableCode::BadId => Code::BadId,
        TableCode::IdTwice => Code::IdTwice,
        TableCode::NoSuchId => Code::NoPredecessor,
        TableCode::BadNeed => Code::BadNeed,
        TableCode::NoCapacity => Code::NoCapacity,
        TableCode::Cycle => Code::TableCycle,
        TableCode::Limit => Code::TableLimit,
        TableCode::Cells => Code::BadCells,
        TableCode::NoResource => Code::NoListResource,
        TableCode::TooManySteps => Code::ManySteps,
        TableCode::Successors => Code::SuccessorColumn,
        TableCode::NeedAbove => Code::HighNeed,
    }
}

// Returns the argument that the error of a list is about.
fn subject_of(code: TableCode) -> About
    ensures { result ≡ table_subject code }
{
    match code {
        TableCode::NoResource => About::Capacity,
        TableCode::TooLong
        | TableCode::NotText
        | TableCode::NoDuration
        | TableCode::ColumnTwice
        | TableCode::BadDuration
        | TableCode::BadId
        | TableCode::IdTwice
        | TableCode::NoSuchId
        | TableCode::BadNeed
        | TableCode::NoCapacity
        | TableCode::Cycle
        | TableCode::Limit
        | TableCode::Cells
        | TableCode::TooManySteps
        | TableCode::Successors
        | TableCode::NeedAbove => About::List,
    }
}

// Returns the column that is missing: that of durations if no other is named.
fn column_named(word: &str) -> &str
    ensures { result.now ≡ spec.column_named word.now }
{
    if word.is_empty() { "duration" } else { word }
}

// Returns words and a name behind them.
fn named(alloc: Global, words: &'static str, name: &str) -> Result<Vec<Part>, AllocError>
    ensures { IfOk result (λ list. parts_text list.items
        ≡ (32 ∷ words.now) ++ (32 ∷ name.now)) }
{
    let name = Part::Text(name.to_string(alloc)?);
    Ok(Vec::from_array(alloc, [Part::Words(words), name])?)
}

// Returns a name between words.
fn between(
    alloc: Global,
    before: &'static str,
    name: &str,
    after: &'static str,
) -> Result<Vec<Part>, AllocError>
    ensures { IfOk result (λ list. parts_text list.items
        ≡ (32 ∷ before.now) ++ ((32 ∷ name.now) ++ (32 ∷ after.now))) }
{
    let name = Part::Text(name.to_string(alloc)?);
    Ok(Vec::from_array(alloc, [Part::Words(before), name, Part::Words(after)])?)
}

// Returns a line and words behind it.
fn lined(alloc: Global, line: u64, words: &'static str) -> Result<Vec<Part>, AllocError>
    ensures { IfOk result (λ list. parts_text list.items
        ≡ (codes " line " ++ decimal line) ++ (32 ∷ words.now)) }
{
    Ok(Vec::from_array(alloc, [Part::Number(Key::Line, line), Part::Words(words)])?)
}

// Returns words and a line behind them.
fn at_line(alloc: Global, words: &'static str, line: u64) -> Result<Vec<Part>, AllocError>
    ensures { IfOk result (λ list. parts_text list.items
        ≡ (32 ∷ words.now) ++ (codes " line " ++ decimal line)) }
{
    Ok(Vec::from_array(alloc, [Part::Words(words), Part::Number(Key::Line, line)])?)
}

// Returns a line, words behind it, and a name.
fn lined_name(
    alloc: Global,
    line: u64,
    words: &'static str,
    name: &str,
) -> Result<Vec<Part>, AllocError>
    ensures { IfOk result (λ list. parts_text list.items
        ≡ (codes " line " ++ decimal line) ++ ((32 ∷ words.now) ++ (32 ∷ name.now))) }
{
    let name = Part::Text(name.to_string(alloc)?);
    Ok(Vec::from_array(
        alloc,
        [Part::Number(Key::Line, line), Part::Words(words), name],
    )?)
}

// Returns a line and an id that the list has twice.
fn twice(alloc: Global, line: u64, id: &str) -> Result<Vec<Part>, AllocError>
    ensures { IfOk result (λ list. parts_text list.items
        ≡ (codes " line " ++ decimal line) ++ (codes " id " ++ (id.now ++ codes " twice"))) }
{
    let mut parts = lined_name(alloc, line, "id", id)?;
    parts.push(Part::Words("twice"))?;
    Ok(parts)
}

// Returns the ids of the rows of a cycle.
fn cycle_ids(alloc: Global, ids: &str) -> Result<Vec<Part>, AllocError>
    ensures { IfOk result (λ list. parts_text list.items ≡ codes " cycle" ++ ids.now) }
{
    let ids = Part::Ids(ids.to_string(alloc)?);
    Ok(Vec::from_array(alloc, [Part::Words("cycle"), ids])?)
}

// Returns what the line of an error with this code, line and word has behind its code.
fn parts_by(alloc: Global, code: TableCode, line: u64, word: &str) -> Result<Vec<Part>, AllocError>
    ensures { IfOk result (λ list. name_of (table_code code) ++ parts_text list.items
        ≡ spec.line_by code line word.now) }
{
    match code {
        TableCode::TooLong => Ok(Vec::from_array(alloc, [Part::Words("too long")])?),
        TableCode::NotText => at_line(alloc, "not text", line),
        TableCode::NoDuration => named(alloc, "no column", column_named(word)),
        TableCode::ColumnTwice => between(alloc, "column", word, "twice"),
        TableCode::BadDuration => lined(alloc, line, "duration"),
        TableCode::BadId => lined(alloc, line, "id"),
        TableCode::IdTwice => twice(alloc, line, word),
        TableCode::NoSuchId => lined_name(alloc, line, "predecessor", word),
        TableCode::BadNeed => lined_name(alloc, line, "need", word),
        TableCode::NoCapacity => named(alloc, "no capacity", word),
        TableCode::Cycle => cycle_ids(alloc, word),
        TableCode::Limit => at_line(alloc, "limit", line),
        TableCode::Cells => lined(alloc, line, "cells"),
        TableCode::NoResource => named(alloc, "no resource", word),
        TableCode::TooManySteps => named(alloc, "steps", word),
        TableCode::Successors => named(alloc, "column", word),
        TableCode::NeedAbove => lined_name(alloc, line, "need", word),
    }
}

// Returns what the line of an error has behind its code.
fn fault_parts(alloc: Global, fault: &TableFault) -> Result<Vec<Part>, AllocError>
    ensures { IfOk result (λ list. name_of (table_code fault.now.code) ++ parts_text list.items
        ≡ spec.fault_text_of (fault_of fault.now)) }
{
    let word = String::from_utf8_lossy(alloc, &fault.word)?;
    parts_by(alloc, fault.code, fault.line, word.as_str())
}

// Returns the sentence that a word isn't a duration or a time. It quotes at most 60 bytes.
fn duration_sentence(alloc: Global, word: &str) -> Result<String, AllocError>
    ensures { IfOk result (λ text. string_bytes text ≡ spec.duration_sentence word.now) }
{
    let word = quoted(alloc, word)?;
    let word = word.as_str();
    let mut text = String::new(alloc);
    write!(text, "\"{word}\" isn't a whole number of at most 10000")?;
    Ok(text)
}

// Returns the sentence that quotes a cell without a duration or a time, unless the cell is empty.
fn quoted_duration(alloc: Global, cell: &[u8]) -> Result<Option<String>, AllocError>
    ensures { IfOk result (λ made.
        option_map string_bytes made ≡ spec.quoted_duration cell.now) }
{
    if cell.is_empty() {
        return Ok(None);
    }
    let word = String::from_utf8_lossy(alloc, cell)?;
    Ok(Some(duration_sentence(alloc, word.as_str())?))
}

// Returns the sentence that quotes the cell of an error, if the cell explains it.
fn quoted_cell(alloc: Global, fault: &TableFault) -> Result<Option<String>, AllocError>
    ensures { IfOk result (λ made.
        option_map string_bytes made ≡ spec.quoted_cell (fault_of fault.now)) }
{
    match fault.code {
        TableCode::BadDuration => quoted_duration(alloc, &fault.word),
        TableCode::TooLong
        | TableCode::NotText
        | TableCode::NoDuration
        | TableCode::ColumnTwice
        | TableCode::BadId
        | TableCode::IdTwice
        | TableCode::NoSuchId
        | TableCode::BadNeed
        | TableCode::NoCapacity
        | TableCode::Cycle
        | TableCode::Limit
        | TableCode::Cells
        | TableCode::NoResource
        | TableCode::TooManySteps
        | TableCode::Successors
        | TableCode::NeedAbove => Ok(None),
    }
}

// Returns the error of a list without its contents and without a detail.
fn plain_refusal(alloc: Global, fault: &TableFault) -> CliFault
    ensures told { Refuses (TellsTable fault.now) result }
    ensures about { IsAbout (table_subject fault.now.code) result }
{
    refuse(
        code_of(fault.code),
        subject_of(fault.code),
        fault_parts(alloc, fault),
    )
}

// Returns the error of a list without a detail.
fn known_refusal(alloc: Global, fault: &TableFault, file: &[u8]) -> CliFault
    ensures told { Refuses (TellsTable fault.now) result }
    ensures about { IsAbout (table_subject fault.now.code) result }
    ensures contents { KnowsFile file.now result }
{
    plain_refusal(alloc, fault).with_contents(contents_of(alloc, file))
}

/// Returns the error of a list. Its detail quotes the cell of a duration or a time that isn't a
/// number.
#[tactic(auto, using(crate::proofs::RefusalLemmas::detailed_refused, crate::proofs::RefusalLemmas::detailed_about, crate::proofs::RefusalLemmas::detailed_knows, crate::proofs::RefusalLemmas::detailed_quotes,))]
pub fn table_refusal(alloc: Global, fault: &TableFault, file: &[u8]) -> CliFault
    ensures told { Refuses (TellsTable fault.now) result }
    ensures about { IsAbout (table_subject fault.now.code) result }
    ensures contents { KnowsFile file.now result }
    ensures detail { spec.QuotesCell (fault_of fault.now) result }
{
    match quoted_cell(alloc, fault) {
        Ok(detail) => known_refusal(alloc, fault, file).with_detail(detail),
        Err(_) => CliFault::Memory,
    }
}

/// Returns the error that a list has no resource of this name.
pub fn resource_refusal(alloc: Global, resource: &[u8], file: &[u8]) -> CliFault
    ensures { Refuses (spec.TellsNoResource resource.now) result }
{
    let Ok(word) = resource.to_vec(alloc) else {
        return CliFault::Memory;
    };
    let fault = TableFault {
        code: TableCode::NoResource,
        line: 0,
        word,
    };
    table_refusal(alloc, &fault, file)
}

/// Returns the error that no column of a list has this header, which an option names.
#[tactic(auto, using(crate::proofs::RefusalLemmas::detailed_refused))]
pub fn header_refusal(alloc: Global, header: &[u8]) -> CliFault
    ensures { Refuses (spec.TellsNoHeader header.now) result }
{
    let Ok(word) = header.to_vec(alloc) else {
        return CliFault::Memory;
    };
    let fault = TableFault {
        code: TableCode::NoDuration,
        line: 0,
        word,
    };
    match "no column has this header".to_string(alloc) {
        Ok(detail) => plain_refusal(alloc, &fault).with_detail(Some(detail)),
        Err(_) => CliFault::Memory,
    }
}
