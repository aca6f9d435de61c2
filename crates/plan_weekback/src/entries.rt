//! The texts of a plan for the activities of its list.

ghost use Rattle.std.specs.Prelude.{◌≡◌, map};
ghost use Rattle.plan_table.specs.Csv.{row_of};
ghost use Rattle.plan_weekback.specs.Columns as spec;
ghost use Rattle.plan_weekback.specs.Entries.{entry_of};

use plan_list_back::has_id;
use plan_table::Row;

/// The start, the finish and the tardiness of an activity in a plan, as texts. `line` is the line
/// in which its row begins, numbered from 1. `id` is its id, which is empty if the list has no
/// column of ids.
#[derive(Drop)]
pub struct Entry {
    pub line: u64,
    pub id: String,
    pub start: String,
    pub finish: String,
    pub late: String,
}

/// A column of a plan.
#[derive(Clone, Copy)]
pub enum Field {
    Start,
    Finish,
    Late,
}

/// Returns the header of a column.
pub fn word_of(field: Field) -> &'static [u8]
    ensures { result.now ≡ spec.word_of field }
{
    match field {
        Field::Start => b"start",
        Field::Finish => b"finish",
        Field::Late => b"late",
    }
}

// Returns the text of an activity in a column.
fn text_in(field: Field, texts: &Entry) -> &[u8]
    ensures { result.now ≡ spec.text_in field (entry_of texts.now) }
{
    match field {
        Field::Start => texts.start.as_bytes(),
        Field::Finish => texts.finish.as_bytes(),
        Field::Late => texts.late.as_bytes(),
    }
}

// Whether an activity is that of a row.
fn is_of(row: &Row, texts: &Entry) -> bool
    ensures { result ≡ spec.is_of (row_of row.now) (entry_of texts.now) }
{
    texts.line == row.line && has_id(texts.id.as_bytes(), &row.cells)
}

/// Returns the text of a column for a row: that of the first activity of the row, or an empty text.
pub fn text_for<'a>(field: Field, entries: &'a [Entry], row: &Row) -> &'a [u8]
    ensures { result.now ≡ spec.text_for field (map entry_of entries.now) (row_of row.now) }
{
    for texts in entries {
        if is_of(row, texts) {
            return text_in(field, texts);
        }
    }
    b""
}
