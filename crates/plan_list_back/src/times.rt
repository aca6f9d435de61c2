//! The times of activities, as texts.

ghost use Rattle.std.specs.Prelude.{◌≡◌, map};
ghost use Rattle.std.specs.List.{list_any};
ghost use Rattle.plan_psplib.specs.Lines as lines;
ghost use Rattle.plan_table.specs.Cells as texts;
ghost use Rattle.plan_table.specs.Csv.{row_of};
ghost use Rattle.plan_list_back.specs.ListBack as spec;

use plan_psplib::trim;
use plan_table::{Row, same};

/// The start, the finish and the slack of an activity, whose row begins in a line and has a cell
/// with its id. Lines are numbered from 1. Without a column of ids the id is empty.
#[derive(Drop)]
pub struct Times<'a> {
    pub line: u64,
    pub id: &'a str,
    pub start: String,
    pub finish: String,
    pub slack: String,
}

/// A column of times.
#[derive(Clone, Copy)]
pub enum Field {
    Start,
    Finish,
    Slack,
}

/// Returns the header of a column.
pub fn word_of(field: Field) -> &'static [u8]
    ensures { result.now ≡ spec.word_of field }
{
    match field {
        Field::Start => b"start",
        Field::Finish => b"finish",
        Field::Slack => b"slack",
    }
}

// The text of a column in times.
fn text_in<'a>(field: Field, times: &'a Times<'_>) -> &'a [u8]
    ensures { result.now ≡ spec.text_in field (spec.times_of times.now) }
{
    match field {
        Field::Start => times.start.as_bytes(),
        Field::Finish => times.finish.as_bytes(),
        Field::Slack => times.slack.as_bytes(),
    }
}

// Whether a cell has an id between blanks.
fn is_in(id: &[u8], cells: &[Vec<u8>]) -> bool
    ensures { result ≡ list_any (λ cell. texts.same (lines.trim cell) id.now)
        (map (λ cell. cell.items) cells.now) }
{
    for cell in cells {
        if same(trim(cell), id) {
            return true;
        }
    }
    false
}

/// Whether an id is empty, or a cell has it between blanks.
pub fn has_id(id: &[u8], cells: &[Vec<u8>]) -> bool
    ensures { result ≡ spec.has_id id.now (map (λ cell. cell.items) cells.now) }
{
    id.is_empty() || is_in(id, cells)
}

// Whether times are those of a row.
fn are_of(row: &Row, times: &Times<'_>) -> bool
    ensures { result ≡ spec.are_of (row_of row.now) (spec.times_of times.now) }
{
    times.line == row.line && has_id(times.id.as_bytes(), &row.cells)
}

/// Returns the text of a column for a row: that of its first times, or an empty one.
pub fn text_for<'a>(field: Field, times: &'a [Times<'_>], row: &Row) -> &'a [u8]
    ensures { result.now ≡ spec.text_for field (map spec.times_of times.now) (row_of row.now) }
{
    for one in times {
        if are_of(row, one) {
            return text_in(field, one);
        }
    }
    b""
}
