//! The text of a table.

ghost use Rattle.std.specs.Prelude.{◌≡◌, ◌++◌, ◌-◌, map, length, replicate, IfOk, OnOk};
ghost use Rattle.plan_formats.specs.Cells as cells;
ghost use Rattle.plan_formats.specs.Columns as layouts;
ghost use Rattle.plan_formats.specs.Columns.{column, column_of, mark_of, placed};
ghost use Rattle.plan_formats.specs.Columns.{placed_heading, wide_mark_of, words_column};
ghost use Rattle.plan_formats.specs.Tables.{cells_of, rows_of, table_of};
ghost use Rattle.plan_formats.specs.TableText as spec;

use crate::cell::{Cell, is_empty};
use crate::column::{Column, Layout};
use crate::day_text::day_text;
use crate::line_text::push_lines;
use crate::table::Table;
use crate::utf8::characters;
use std::alloc::{AllocError, Global};

// A row of the text: its characters, and its label, which is an empty cell if it has none.
#[derive(Drop)]
struct TextRow<'a> {
    base: Vec<u8>,
    label: Cell<'a>,
}

// Returns the bytes of a text.
fn bytes_of(alloc: Global, bytes: &[u8]) -> Result<Vec<u8>, AllocError>
    ensures { IfOk result (λ text. text.items ≡ bytes.now) }
{
    let mut text = Vec::new(alloc);
    text.extend_from_slice(bytes)?;
    Ok(text)
}

// Returns a cell in the text.
fn cell_text(alloc: Global, cell: &Cell<'_>) -> Result<Vec<u8>, AllocError>
    ensures { IfOk result (λ text. text.items ≡ cells.text_of (cells.cell_of cell.now)) }
{
    match cell {
        Cell::Number(n) => Ok(format!(in alloc; "{n}")?.into_bytes()),
        Cell::Above(n) => Ok(format!(in alloc; "+{n}")?.into_bytes()),
        Cell::Below(n) => Ok(format!(in alloc; "-{n}")?.into_bytes()),
        Cell::Day { year, month, day } => day_text(alloc, *year, *month, *day),
        Cell::Text(text) => bytes_of(alloc, text),
        Cell::Flag(true) => bytes_of(alloc, b"true"),
        Cell::Flag(false) => bytes_of(alloc, b"false"),
        Cell::Empty => bytes_of(alloc, b"-"),
    }
}

// Appends spaces.
fn push_spaces(text: &mut Vec<u8>, count: usize) -> Result<(), AllocError>
    ensures { OnOk result (text.new.items ≡ text.old.items ++ replicate count 32) }
{
    for _done in 0..count {
        text.push(b' ')?;
    }
    Ok(())
}

// Appends a text, aligned right in `places` characters.
fn push_right(text: &mut Vec<u8>, places: usize, word: &[u8]) -> Result<(), AllocError>
    ensures { OnOk result (text.new.items ≡ text.old.items ++ column places word.now) }
{
    push_spaces(text, places.saturating_sub(word.len()))?;
    text.extend_from_slice(word)
}

// Appends a blank and a text, which is aligned right in `places` characters.
fn push_words(text: &mut Vec<u8>, places: usize, words: &[u8]) -> Result<(), AllocError>
    ensures { OnOk result (text.new.items
        ≡ text.old.items ++ words_column places words.now) }
{
    text.push(b' ')?;
    push_spaces(text, places.saturating_sub(characters(words)))?;
    text.extend_from_slice(words)
}

// Appends the mark of a row.
fn push_mark(text: &mut Vec<u8>, cell: &Cell<'_>) -> Result<(), AllocError>
    ensures { OnOk result (text.new.items
        ≡ text.old.items ++ mark_of (cells.cell_of cell.now)) }
{
    if let Cell::Flag(true) = cell {
        text.extend_from_slice(b" *")?;
    }
    Ok(())
}

// Appends the mark of a row, or two blanks.
fn push_wide_mark(text: &mut Vec<u8>, cell: &Cell<'_>) -> Result<(), AllocError>
    ensures { OnOk result (text.new.items
        ≡ text.old.items ++ wide_mark_of (cells.cell_of cell.now)) }
{
    match cell {
        Cell::Flag(true) => text.extend_from_slice(b" *"),
        _ => text.extend_from_slice(b"  "),
    }
}

// Appends a cell at the place of its column.
fn push_placed(
    alloc: Global,
    text: &mut Vec<u8>,
    layout: Layout,
    cell: &Cell<'_>,
) -> Result<(), AllocError>
    ensures { OnOk result (text.new.items
        ≡ text.old.items ++ placed layout (cells.cell_of cell.now)) }
{
    match layout {
        Layout::Right(places) => push_right(text, places, &cell_text(alloc, cell)?),
        Layout::Mark => push_mark(text, cell),
        Layout::WideMark => push_wide_mark(text, cell),
        Layout::Words(places) => push_words(text, places, &cell_text(alloc, cell)?),
        Layout::Label | Layout::Member => Ok(()),
        Layout::Line => text.extend_from_slice(&cell_text(alloc, cell)?),
    }
}

// Returns the characters of a row.
fn base_of(alloc: Global, columns: &[Column], row: &[Cell<'_>]) -> Result<Vec<u8>, AllocError>
    ensures { IfOk result (λ text. text.items
        ≡ spec.base_of (map column_of columns.now) (cells_of row.now)) }
{
    let mut text = Vec::new(alloc);
    let mut left = columns;
    for cell in row {
        let [column, rest @ ..] = left else {
            return Ok(text);
        };
        push_placed(alloc, &mut text, column.layout, cell)?;
        left = rest;
    }
    Ok(text)
}

// Whether a column has labels.
fn is_label(layout: Layout) -> bool
    ensures { result ≡ layouts.is_label layout }
{
    matches!(layout, Layout::Label)
}

// Returns a label, or in its place the cell of a column with labels.
fn label_after<'a>(found: Cell<'a>, column: &Column, cell: &Cell<'a>) -> Cell<'a>
    ensures { cells.cell_of result ≡ spec.label_after (cells.cell_of found.entry)
        (column_of column.now) (cells.cell_of cell.now) }
{
    if is_label(column.layout) {
        *cell
    } else {
        found
    }
}

// Returns the label of a row.
fn label_of<'a>(columns: &[Column], row: &[Cell<'a>]) -> Cell<'a>
    ensures { cells.cell_of result ≡ spec.label_of (map column_of columns.now) (cells_of row.now) }
{
    let mut label = Cell::Empty;
    let mut left = columns;
    for cell in row {
        let [column, rest @ ..] = left else {
            return label;
        };
        label = label_after(label, column, cell);
        left = rest;
    }
    label
}

// Appends a heading at the place of its column.
fn push_heading(text: &mut Vec<u8>, column: &Column) -> Result<(), AllocError>
    ensures { OnOk result (text.new.items ≡ text.old.items
        ++ placed_heading column.now.layout column.now.heading.now) }
{
    match column.layout {
        Layout::Right(places) => push_right(text, places, column.heading.as_bytes()),
        Layout::Words(places) => push_words(text, places, column.heading.as_bytes()),
        Layout::WideMark => text.extend_from_slice(b"  "),
        Layout::Mark | Layout::Label | Layout::Line | Layout::Member => Ok(()),
    }
}

// Returns the characters of the line of headings.
fn heading_base(alloc: Global, columns: &[Column]) -> Result<Vec<u8>, AllocError>
    ensures { IfOk result (λ text. text.items
        ≡ spec.heading_base (map column_of columns.now)) }
{
    let mut text = Vec::new(alloc);
    for column in columns {
        push_heading(&mut text, column)?;
    }
    Ok(text)
}

// Returns the heading of the last column with labels.
fn heading_label<'a>(columns: &[Column]) -> Cell<'a>
    ensures { cells.cell_of result ≡ spec.heading_label (map column_of columns.now) }
{
    let mut label = Cell::Empty;
    for column in columns {
        let heading = Cell::Text(column.heading.as_bytes());
        label = label_after(label, column, &heading);
    }
    label
}

// Whether the cells of a column are whole lines.
fn is_line(layout: Layout) -> bool
    ensures { result ≡ layouts.is_line layout }
{
    matches!(layout, Layout::Line)
}

// Whether the cells of some column are whole lines.
fn has_lines(columns: &[Column]) -> bool
    ensures { result ≡ spec.has_lines (map column_of columns.now) }
{
    for column in columns {
        if is_line(column.layout) {
            return true;
        }
    }
    false
}

// Returns the line of headings, if the table has one.
fn headings<'a>(alloc: Global, columns: &[Column]) -> Result<Vec<TextRow<'a>>, AllocError>
    ensures { IfOk result (λ rows. map spec.text_row_of rows.items
        ≡ spec.headings (map column_of columns.now)) }
{
    let mut rows = Vec::new(alloc);
    if has_lines(columns) {
        return Ok(rows);
    }
    let base = heading_base(alloc, columns)?;
    let label = heading_label(columns);
    rows.push(TextRow { base, label })?;
    Ok(rows)
}

// Returns the rows of the text.
fn text_rows<'a>(
    alloc: Global,
    columns: &[Column],
    rows: &[Vec<Cell<'a>>],
) -> Result<Vec<TextRow<'a>>, AllocError>
    ensures { IfOk result (λ made. map spec.text_row_of made.items
        ≡ spec.text_rows (map column_of columns.now) (rows_of rows.now)) }
{
    let mut made = headings(alloc, columns)?;
    for row in rows {
        let base = base_of(alloc, columns, row)?;
        let label = label_of(columns, row);
        made.push(TextRow { base, label })?;
    }
    Ok(made)
}

// Returns the characters of a row that has a label, 0 for another row.
fn labelled_length(row: &TextRow<'_>) -> usize
    ensures { result ≡ spec.labelled_length (spec.text_row_of row.now) }
{
    if is_empty(&row.label) {
        return 0;
    }
    characters(&row.base)
}

// Returns the characters of the longest row that has a label.
fn label_place(rows: &[TextRow<'_>]) -> usize
    ensures { result ≡ spec.label_place (map spec.text_row_of rows.now) }
{
    let mut longest = 0;
    for row in rows {
        longest = longest.max(labelled_length(row));
    }
    longest
}

// Appends the label of a row.
fn push_label(
    alloc: Global,
    text: &mut Vec<u8>,
    place: usize,
    row: &TextRow<'_>,
) -> Result<(), AllocError>
    ensures { OnOk result (text.new.items ≡ text.old.items
        ++ spec.label_text place (spec.text_row_of row.now)) }
{
    if is_empty(&row.label) {
        return Ok(());
    }
    push_spaces(text, place.saturating_sub(characters(&row.base)))?;
    text.push(b' ')?;
    text.extend_from_slice(&cell_text(alloc, &row.label)?)
}

// Appends the line of a row.
fn push_row(
    alloc: Global,
    text: &mut Vec<u8>,
    place: usize,
    row: &TextRow<'_>,
) -> Result<(), AllocError>
    ensures { OnOk result (text.new.items ≡ text.old.items
        ++ spec.row_line place (spec.text_row_of row.now)) }
{
    text.extend_from_slice(&row.base)?;
    push_label(alloc, text, place, row)?;
    text.push(b'\n')?;
    Ok(())
}

// Appends the lines of rows.
fn push_rows(alloc: Global, text: &mut Vec<u8>, rows: &[TextRow<'_>]) -> Result<(), AllocError>
    ensures { OnOk result (text.new.items ≡ text.old.items
        ++ spec.rows_text (map spec.text_row_of rows.now)) }
{
    let place = label_place(rows);
    for row in rows {
        push_row(alloc, text, place, row)?;
    }
    Ok(())
}

/// Returns the text of a table: the lines above the rows, the line of headings, a line for each
/// row, and the lines below the rows. A table with a column of whole lines has no line of headings.
pub fn table_text(alloc: Global, table: &Table<'_>) -> Result<Vec<u8>, AllocError>
    ensures { IfOk result (λ text. text.items ≡ spec.text_of (table_of table.now)) }
{
    let rows = text_rows(alloc, &table.columns, &table.rows)?;
    let mut text = Vec::new(alloc);
    push_lines(alloc, &mut text, &table.above)?;
    push_rows(alloc, &mut text, &rows)?;
    push_lines(alloc, &mut text, &table.below)?;
    Ok(text)
}
