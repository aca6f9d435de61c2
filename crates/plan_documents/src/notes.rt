//! The notes on a list: its encoding and its ignored columns.

ghost use Rattle.std.specs.Prelude.{◌≡◌, ◌++◌, IfOk, OnOk, map, option_map, string_bytes};
ghost use Rattle.std.specs.List.{flat_map};
ghost use Rattle.plan_table.specs.Overrides.{override_of};
ghost use Rattle.plan_documents.specs.Notes as spec;

use crate::quotes::quoted;
use crate::spreadsheets::plain_of;
use plan_encoding::Encoding;
use plan_errors::{CliFault, masked};
use plan_spreadsheet::PlainList;
use plan_table::Override;
use std::alloc::{AllocError, Global};

// Returns the header of a column, at most 60 bytes of it, without control characters.
fn shown_header(alloc: Global, header: &str) -> Result<String, AllocError>
    ensures { IfOk result (λ text. string_bytes text ≡ spec.shown_header header.now) }
{
    let header = quoted(alloc, header)?;
    masked(alloc, header.as_str())
}

// Appends the header of a column behind another header.
fn push_header(alloc: Global, text: &mut String, header: &str) -> Result<(), AllocError>
    ensures { OnOk result (string_bytes text.new
        ≡ string_bytes text.old ++ spec.next_header header.now) }
{
    let header = shown_header(alloc, header)?;
    text.push_str(", ")?;
    text.push_str(header.as_str())
}

// Appends the headers of columns behind another header.
fn push_headers(alloc: Global, text: &mut String, headers: &[String]) -> Result<(), AllocError>
    ensures { OnOk result (string_bytes text.new ≡ string_bytes text.old
        ++ flat_map spec.next_header (map string_bytes headers.now)) }
{
    for header in headers {
        push_header(alloc, text, header.as_str())?;
    }
    Ok(())
}

// Returns the note on ignored columns.
fn ignored_text(alloc: Global, first: &str, rest: &[String]) -> Result<String, AllocError>
    ensures { IfOk result (λ text. string_bytes text ≡ spec.ignored_text first.now
        (map string_bytes rest.now)) }
{
    let header = shown_header(alloc, first)?;
    let mut text = "ignored columns: ".to_string(alloc)?;
    text.push_str(header.as_str())?;
    push_headers(alloc, &mut text, rest)?;
    Ok(text)
}

// Returns the note on ignored columns, if there are some.
fn ignored_note(alloc: Global, headers: &[String]) -> Result<Option<String>, AllocError>
    ensures { IfOk result (λ note. option_map string_bytes note
        ≡ spec.ignored_note (map string_bytes headers.now)) }
{
    match headers {
        [] => Ok(None),
        [first, rest @ ..] => Ok(Some(ignored_text(alloc, first.as_str(), rest)?)),
    }
}

// Returns the note on the encoding, if it is a guess.
fn encoding_note(alloc: Global, encoding: Encoding) -> Result<Option<String>, AllocError>
    ensures { IfOk result (λ note. option_map string_bytes note ≡ spec.encoding_note encoding) }
{
    match encoding {
        Encoding::Windows1252 => Ok(Some("read as Windows-1252".to_string(alloc)?)),
        Encoding::Utf8 | Encoding::Utf16Le | Encoding::Utf16Be => Ok(None),
    }
}

// Returns two notes in one line.
fn joined(first: String, second: &str) -> Result<String, AllocError>
    ensures { IfOk result (λ text. string_bytes text
        ≡ spec.joined_text (string_bytes first) second.now) }
{
    let mut text = first;
    text.push_str("; ")?;
    text.push_str(second)?;
    Ok(text)
}

// Returns two notes in one line, or the one that there is.
fn joined_notes(first: Option<String>, second: Option<String>) -> Result<Option<String>, AllocError>
    ensures { IfOk result (λ note. option_map string_bytes note ≡ spec.joined_notes
        (option_map string_bytes first) (option_map string_bytes second)) }
{
    match (first, second) {
        (None, second) => Ok(second),
        (Some(first), None) => Ok(Some(first)),
        (Some(first), Some(second)) => Ok(Some(joined(first, second.as_str())?)),
    }
}

/// Returns the line of notes on a plain list, if there are notes.
pub fn note_line(alloc: Global, plain: &PlainList) -> Result<Option<String>, AllocError>
    ensures { IfOk result (λ note. option_map string_bytes note ≡ spec.note_line plain.now) }
{
    let encoding = encoding_note(alloc, plain.encoding)?;
    let ignored = ignored_note(alloc, &plain.ignored)?;
    joined_notes(encoding, ignored)
}

/// Returns the line of notes on the list in a file, with capacities that are given: its encoding if
/// that is a guess, and the headers of the ignored columns. `None` if there are no notes. Errors:
/// those of its plain list.
pub fn notes_of(
    alloc: Global,
    given: &[Override<'_>],
    file: &[u8],
) -> Result<Option<String>, CliFault>
    ensures { IfOk result (λ note. spec.AreNotesOf (map override_of given.now) file.now
        (option_map string_bytes note)) }
{
    let plain = plain_of(alloc, given, file)?;
    Ok(note_line(alloc, &plain)?)
}
