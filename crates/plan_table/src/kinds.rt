//! Lists that are recognised by their headers, without the option of a command.

ghost use Rattle.std.specs.Prelude.{◌≡◌, ◌⊎◌, ◌≤◌, length, map, take, IfOk};
ghost use Rattle.plan_psplib.specs.Faults.{IsWantOfMemory};
ghost use Rattle.plan_psplib.specs.Project.{IsFirstFailing};
ghost use Rattle.plan_table.specs.Kinds as spec;

use crate::cells::same;
use crate::entries::filled_from;
use crate::header::{Column, key_of, same_kind};
use crate::records::read_header_rows;
use crate::synonyms::synonym_kind;
use plan_orlib::names;
use plan_psplib::{FileCode, FileFault, LONGEST_TEXT, read_sm};
use std::alloc::{AllocError, Global};

/// The kind of a list.
#[derive(Clone, Copy, Debug, PartialEq, Eq)]
pub enum ListKind {
    /// Activities, with a column of durations.
    Activities,
    /// Orders, with columns of machines and times.
    Orders,
}

// Whether a cell is this header.
fn has_header(alloc: Global, cells: &[Vec<u8>], key: &[u8]) -> Result<bool, AllocError>
    ensures { IfOk result (λ has. has
        ≡ spec.has_header key.now (map (λ cell. cell.items) cells.now)) }
{
    for cell in cells {
        if same(&key_of(alloc, cell)?, key) {
            return Ok(true);
        }
    }
    Ok(false)
}

// Whether a kind of column is that of the durations.
fn is_duration(kind: Option<Column>) -> bool
    ensures { result ≡ spec.is_duration kind }
{
    match kind {
        Some(kind) => same_kind(Column::Duration, kind),
        None => false,
    }
}

// Whether a header is `duration`, or another word for it.
fn is_duration_key(key: &[u8]) -> bool
    ensures { result ≡ spec.is_duration_key key.now }
{
    same(key, b"duration") || is_duration(synonym_kind(key))
}

// Whether a cell is a header of durations.
fn has_duration(alloc: Global, cells: &[Vec<u8>]) -> Result<bool, AllocError>
    ensures { IfOk result (λ has. has
        ≡ spec.has_duration (map (λ cell. cell.items) cells.now)) }
{
    for cell in cells {
        if is_duration_key(&key_of(alloc, cell)?) {
            return Ok(true);
        }
    }
    Ok(false)
}

// Whether two cells are these headers.
fn has_headers(
    alloc: Global,
    cells: &[Vec<u8>],
    first: &[u8],
    second: &[u8],
) -> Result<bool, AllocError>
    ensures { IfOk result (λ has. has
        ≡ spec.has_headers first.now second.now (map (λ cell. cell.items) cells.now)) }
{
    if has_header(alloc, cells, first)? {
        return has_header(alloc, cells, second);
    }
    Ok(false)
}

// The kind of list with this header.
fn kind_of_header(alloc: Global, cells: &[Vec<u8>]) -> Result<Option<ListKind>, AllocError>
    ensures { IfOk result (λ kind. kind
        ≡ spec.kind_of_header (map (λ cell. cell.items) cells.now)) }
{
    if has_duration(alloc, cells)? {
        return Ok(Some(ListKind::Activities));
    }
    if has_headers(alloc, cells, b"order", b"machine")? {
        return Ok(Some(ListKind::Orders));
    }
    Ok(None)
}

// The first bytes of a text, at most so many.
fn first_bytes(text: &[u8], most: usize) -> &[u8]
    ensures bytes { result.now ≡ take most text.now }
    ensures few { length result.now ≤ most }
{
    if text.len() <= most {
        return text;
    }
    &text[..most]
}

// The kind of list by the header of a text.
fn header_kind(alloc: Global, text: &[u8]) -> Result<Option<ListKind>, AllocError>
    ensures { IfOk result (λ kind. kind ≡ spec.header_kind text.now) }
{
    let rows = read_header_rows(alloc, first_bytes(text, LONGEST_TEXT))?;
    match filled_from(&rows) {
        [first, ..] => kind_of_header(alloc, &first.cells),
        [] => Ok(None),
    }
}

// Whether a text with this error is a project file.
fn is_refused_project(text: &[u8], fault: &FileFault) -> Result<bool, AllocError>
    requires { IsWantOfMemory fault.now ⊎ IsFirstFailing text.now fault.now }
    ensures { IfOk result (λ is. spec.Decides is (spec.IsProjectFile text.now)) }
{
    let _text = text;
    match fault.code {
        FileCode::Memory => Err(AllocError),
        _ => Ok(false),
    }
}

// Whether a text is a project file.
fn is_project_file(alloc: Global, text: &[u8]) -> Result<bool, AllocError>
    ensures { IfOk result (λ is. spec.Decides is (spec.IsProjectFile text.now)) }
{
    match read_sm(alloc, text) {
        Ok(_) => Ok(true),
        Err(fault) => is_refused_project(text, &fault),
    }
}

// Whether a text names an instance of a job shop file.
fn names_instance(alloc: Global, text: &[u8]) -> Result<bool, AllocError>
    ensures { IfOk result (λ is. spec.Decides is (spec.NamesInstance text.now)) }
{
    match names(alloc, text) {
        Ok(names) => Ok(!names.is_empty()),
        Err(fault) => match fault.code {
            FileCode::Memory => Err(AllocError),
            _ => Ok(false),
        },
    }
}

/// Whether a text is a project file, or names an instance of a job shop file.
pub fn is_plan_file(alloc: Global, text: &[u8]) -> Result<bool, AllocError>
    ensures { IfOk result (λ is. spec.Decides is (spec.IsPlanFile text.now)) }
{
    if is_project_file(alloc, text)? {
        return Ok(true);
    }
    names_instance(alloc, text)
}

/// Returns the kind of list that a text is: its header has `duration` or another word for it, or
/// `order` and `machine`, in whatever case. A project file and a job shop file are no lists. A list can have errors. The
/// header is the first record with content; no more is read of a text without such a header.
pub fn list_kind(alloc: Global, text: &[u8]) -> Result<Option<ListKind>, AllocError>
    ensures kind { IfOk result (spec.IsKind text.now) }
{
    let Some(kind) = header_kind(alloc, text)? else {
        return Ok(None);
    };
    if is_plan_file(alloc, text)? {
        return Ok(None);
    }
    Ok(Some(kind))
}
