//! The plain list that a file becomes.

ghost use Rattle.std.specs.Prelude.{◌≡◌, map, IfOk, IfErr};
ghost use Rattle.plan_encoding.specs.Encodings.{encoding, utf8_of};
ghost use Rattle.plan_encoding.specs.Workbooks.{workbook};
ghost use Rattle.plan_table.specs.Overrides.{override_of};
ghost use Rattle.plan_spreadsheet.specs.PlainLists as spec;

use crate::acceptance::is_readable;
use crate::fault::SpreadsheetFault;
use crate::rewriting::{Rewriting, plain_text, unchanged};
use plan_encoding::{Decoded, Encoding, Workbook, utf8_text, workbook_of};
use plan_table::{ListKind, Override, list_kind};
use std::alloc::{AllocError, Global};

/// A file as a plain list.
#[derive(Drop)]
pub struct PlainList {
    /// The text of the plain list in UTF-8; `None` if the bytes of the file stay.
    pub text: Option<Vec<u8>>,
    /// The encoding of the file; `Utf8` if its bytes stay.
    pub encoding: Encoding,
    /// The headers of the columns that are ignored.
    pub ignored: Vec<String>,
}

impl PlainList {
    /// Returns the text that is read: the plain list, or `bytes`, which are those of the file.
    pub fn utf8<'a>(&'a self, bytes: &'a [u8]) -> &'a [u8]
        ensures { result.now ≡ spec.text_of self.now bytes.now }
    {
        match &self.text {
            Some(text) => text,
            None => bytes,
        }
    }
}

// The bytes of the file stay.
fn staying(alloc: Global) -> PlainList
    ensures { spec.Stays result }
{
    PlainList {
        text: None,
        encoding: Encoding::Utf8,
        ignored: Vec::new(alloc),
    }
}

// The error of a workbook.
fn workbook_fault(book: Workbook) -> SpreadsheetFault
    ensures { result ≡ spec.fault_of book }
{
    match book {
        Workbook::Excel => SpreadsheetFault::Excel,
        Workbook::OldExcel => SpreadsheetFault::OldExcel,
        Workbook::OpenDocument => SpreadsheetFault::OpenDocument,
        Workbook::Project => SpreadsheetFault::Project,
    }
}

// Rewrites a list of a kind.
fn text_of_kind(
    alloc: Global,
    kind: ListKind,
    overrides: &[Override<'_>],
    text: &[u8],
) -> Result<Rewriting, SpreadsheetFault>
    ensures text { IfOk result (spec.IsTextOf kind (map override_of overrides.now) text.now) }
    ensures refused { IfErr result (spec.IsNoText (map override_of overrides.now) text.now) }
{
    match kind {
        ListKind::Activities => {
            let rewriting = plain_text(alloc, overrides, text)?;
            Ok(rewriting)
        }
        ListKind::Orders => Ok(unchanged(alloc)),
    }
}

// A decoded file with its rewriting.
fn joined(decoded: Decoded, rewriting: Rewriting) -> PlainList
    ensures { result ≡ spec.joined decoded rewriting }
{
    let Rewriting { text, ignored } = rewriting;
    let Decoded {
        encoding,
        text: decoded,
    } = decoded;
    match text {
        Some(text) => PlainList {
            text: Some(text),
            encoding,
            ignored,
        },
        None => PlainList {
            text: decoded,
            encoding,
            ignored,
        },
    }
}

// Returns the plain list of a file that is no workbook, and can't be read as it is.
#[tactic(auto, using(crate::proofs::ListLemmas::stays_if, crate::proofs::ListLemmas::becomes_if, crate::proofs::ListLemmas::no_text_of))]
fn decoded_list(
    alloc: Global,
    overrides: &[Override<'_>],
    bytes: &[u8],
) -> Result<PlainList, SpreadsheetFault>
    ensures list { IfOk result (spec.IsDecoded (map override_of overrides.now) bytes.now) }
    ensures refused { IfErr result
        (spec.IsNoText (map override_of overrides.now) (utf8_of bytes.now)) }
{
    let decoded = utf8_text(alloc, bytes)?;
    let text = decoded.utf8(bytes);
    match list_kind(alloc, text)? {
        Some(kind) => {
            let rewriting = text_of_kind(alloc, kind, overrides, text)?;
            Ok(joined(decoded, rewriting))
        }
        None => Ok(staying(alloc)),
    }
}

/// Returns the plain list that a file becomes, with given capacities.
///
/// A project file, a job shop file, and a list that plan_table reads stay as they are. A workbook
/// is refused (T18). Another file is decoded. If it is no list then, its bytes stay. A list of
/// activities that plan_table still refuses is rewritten without its groups and notes; T1 if the
/// plain list has more than 1,048,576 bytes. Errors of the list itself are left to plan_table: each
/// row keeps its line.
#[tactic(auto, using(crate::proofs::ListLemmas::plain_stays, crate::proofs::ListLemmas::plain_decoded, crate::proofs::ListLemmas::keeps_accepted, crate::proofs::ListLemmas::keeps_files, crate::proofs::ListLemmas::no_plain_book, crate::proofs::ListLemmas::no_plain_text))]
pub fn plain_list(
    alloc: Global,
    overrides: &[Override<'_>],
    bytes: &[u8],
) -> Result<PlainList, SpreadsheetFault>
    // The text is the plain list; a file that can be read stays.
    ensures plain { IfOk result (spec.IsPlain (map override_of overrides.now) bytes.now) }
    // A list that plan_table accepts means the same.
    ensures accepted { IfOk result
        (spec.KeepsAccepted (map override_of overrides.now) bytes.now) }
    ensures files { IfOk result (spec.KeepsFiles bytes.now) }
    // Only a workbook is refused, and a list that becomes too long.
    ensures refused { IfErr result (spec.IsNoPlain (map override_of overrides.now) bytes.now) }
{
    let readable = is_readable(alloc, overrides, bytes)?;
    if readable {
        return Ok(staying(alloc));
    }
    match workbook_of(bytes) {
        Some(book) => Err(workbook_fault(book)),
        None => {
            let list = decoded_list(alloc, overrides, bytes)?;
            Ok(list)
        }
    }
}
