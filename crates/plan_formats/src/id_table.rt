//! Tables with the ids of activities in the place of their numbers.

ghost use Rattle.std.specs.Prelude.{◌≡◌, ◌∷◌, ◌++◌, map, option_map, IfOk, OnOk};
ghost use Rattle.plan_table.specs.Names.{name_of};
ghost use Rattle.plan_formats.specs.Cells.{cell_of};
ghost use Rattle.plan_formats.specs.Columns.{column_of};
ghost use Rattle.plan_formats.specs.TableLines.{id_chain as id_chain_line, line_of};
ghost use Rattle.plan_formats.specs.Tables.{cells_of, rows_of, table_of};
ghost use Rattle.plan_formats.specs.IdTables as spec;

use crate::cell::{Cell, is_empty};
use crate::column::{Column, Layout};
use crate::line::Line;
use crate::name_columns::name_of_cell;
use crate::table::Table;
use plan_table::{NameLine, first_name};
use std::alloc::{AllocError, Global};

// Returns a row behind its id.
fn row_behind<'a>(
    alloc: Global,
    id: Cell<'a>,
    row: &[Cell<'a>],
) -> Result<Vec<Cell<'a>>, AllocError>
    ensures { IfOk result (λ made. cells_of made.items ≡ cell_of id.entry ∷ cells_of row.now) }
{
    let mut cells = Vec::new(alloc);
    cells.push(id)?;
    cells.extend_from_slice(row)?;
    Ok(cells)
}

// Appends a row behind its id, if it has an id.
fn push_row<'a>(
    alloc: Global,
    rows: &mut Vec<Vec<Cell<'a>>>,
    ids: &[NameLine<'a>],
    row: &[Cell<'a>],
) -> Result<(), AllocError>
    ensures { OnOk result (rows_of rows.new.items
        ≡ rows_of rows.old.items ++ spec.id_row (map name_of ids.now) (cells_of row.now)) }
{
    let id = name_of_cell(ids, row.first());
    if is_empty(&id) {
        return Ok(());
    }
    rows.push(row_behind(alloc, id, row)?)?;
    Ok(())
}

// Returns the rows whose number has an id, each behind its id.
fn id_rows<'a>(
    alloc: Global,
    ids: &[NameLine<'a>],
    rows: &[Vec<Cell<'a>>],
) -> Result<Vec<Vec<Cell<'a>>>, AllocError>
    ensures { IfOk result (λ made. rows_of made.items
        ≡ spec.id_rows (map name_of ids.now) (rows_of rows.now)) }
{
    let mut made = Vec::new(alloc);
    for row in rows {
        push_row(alloc, &mut made, ids, row)?;
    }
    Ok(made)
}

// Returns the places of a column in the text, 0 if it isn't aligned right.
fn places_of(layout: Layout) -> usize
    ensures { result ≡ spec.places_of layout }
{
    match layout {
        Layout::Right(places) => places,
        Layout::Mark | Layout::WideMark | Layout::Label | Layout::Line | Layout::Words(_) => 0,
        Layout::Member => 0,
    }
}

// Returns the places of a column, or the length of the longest id if that is more.
fn id_places(layout: Layout, ids: &[NameLine<'_>]) -> usize
    ensures { result ≡ spec.id_places layout (map name_of ids.now) }
{
    let mut longest = places_of(layout);
    for id in ids {
        longest = longest.max(id.name.len());
    }
    longest
}

// Returns columns with the ids in the place of the first of them.
fn id_columns(
    alloc: Global,
    ids: &[NameLine<'_>],
    columns: &[Column],
) -> Result<Vec<Column>, AllocError>
    ensures { IfOk result (λ made. map column_of made.items
        ≡ spec.id_columns (map name_of ids.now) (map column_of columns.now)) }
{
    let mut made = Vec::new(alloc);
    if let [first, rest @ ..] = columns {
        made.push(Column {
            heading: "id",
            word: "id",
            layout: Layout::Right(id_places(first.layout, ids)),
        })?;
        made.push(Column {
            heading: first.heading,
            word: first.word,
            layout: Layout::Member,
        })?;
        made.extend_from_slice(rest)?;
    }
    Ok(made)
}

// Appends the id of a number, if it has one.
fn push_id(alloc: Global, words: &mut Vec<Vec<u8>>, id: Option<&[u8]>) -> Result<(), AllocError>
    ensures { OnOk result (map (λ word. word.items) words.new.items
        ≡ map (λ word. word.items) words.old.items
        ++ spec.word_or_none (option_map (λ id. id.now) id.entry)) }
{
    if let Some(id) = id {
        let mut word = Vec::new(alloc);
        word.extend_from_slice(id)?;
        words.push(word)?;
    }
    Ok(())
}

// Returns the ids of numbers, without the numbers that have none.
fn ids_of(alloc: Global, ids: &[NameLine<'_>], numbers: &[u32]) -> Result<Vec<Vec<u8>>, AllocError>
    ensures { IfOk result (λ words. map (λ word. word.items) words.items
        ≡ spec.ids_of (map name_of ids.now) numbers.now) }
{
    let mut words = Vec::new(alloc);
    for n in numbers {
        push_id(alloc, &mut words, first_name(ids, u64::from(*n)))?;
    }
    Ok(words)
}

// Returns the numbers of a chain, if a line has one.
fn chain_in(line: &Line) -> Option<&[u32]>
    ensures { option_map (λ numbers. numbers.now) result ≡ spec.chain_in (line_of line.now) }
{
    match line {
        Line::Chain(Some(numbers)) => Some(numbers),
        _ => None,
    }
}

// Returns the numbers of a chain that is the only line.
fn only_chain(lines: &[Line]) -> Option<&[u32]>
    ensures { option_map (λ numbers. numbers.now) result
        ≡ spec.only_chain (map line_of lines.now) }
{
    match lines {
        [line] => chain_in(line),
        _ => None,
    }
}

// Returns a chain with the ids of its activities.
fn id_chain(alloc: Global, ids: &[NameLine<'_>], numbers: &[u32]) -> Result<Line, AllocError>
    ensures { IfOk result (λ made. line_of made
        ≡ id_chain_line numbers.now (spec.ids_of (map name_of ids.now) numbers.now)) }
{
    let words = ids_of(alloc, ids, numbers)?;
    let mut chain = Vec::new(alloc);
    chain.extend_from_slice(numbers)?;
    Ok(Line::IdChain(chain, words))
}

// Returns lines; a chain that is the only one has the ids of its activities.
fn lines_with_ids(
    alloc: Global,
    ids: &[NameLine<'_>],
    lines: Vec<Line>,
) -> Result<Vec<Line>, AllocError>
    ensures { IfOk result (λ made. map line_of made.items
        ≡ spec.lines_with_ids (map name_of ids.now) (map line_of lines.items)) }
{
    match only_chain(&lines) {
        Some(numbers) => Ok(Vec::from_array(alloc, [id_chain(alloc, ids, numbers)?])?),
        None => Ok(lines),
    }
}

// Whether the first column has the numbers of activities.
fn has_activities(columns: &[Column]) -> bool
    ensures { result ≡ spec.has_activities (map column_of columns.now) }
{
    match columns {
        [first, ..] => first.word == "activity",
        [] => false,
    }
}

// Whether the ids replace the first column.
fn takes_ids(ids: &[NameLine<'_>], columns: &[Column]) -> bool
    ensures { result ≡ spec.takes_ids (map name_of ids.now) (map column_of columns.now) }
{
    !ids.is_empty() && has_activities(columns)
}

/// Returns a table of activities with their ids in the place of their numbers. Any other table, and
/// a table without ids, is returned as it is.
///
/// A row has the first id of the number in its first cell; rows whose number has no id are left
/// out. The ids are aligned right in the places of the numbers, or in as many characters as the
/// longest id has. The text and CSV have no numbers, JSON has `id` and `activity`. A chain below
/// the rows has the ids of its activities.
pub fn with_ids<'a>(
    alloc: Global,
    table: Table<'a>,
    ids: &[NameLine<'a>],
) -> Result<Table<'a>, AllocError>
    ensures { IfOk result (λ made. table_of made
        ≡ spec.with_ids (map name_of ids.now) (table_of table.entry)) }
{
    if !takes_ids(ids, &table.columns) {
        return Ok(table);
    }
    let rows = id_rows(alloc, ids, &table.rows)?;
    let columns = id_columns(alloc, ids, &table.columns)?;
    let below = lines_with_ids(alloc, ids, table.below)?;
    Ok(Table {
        above: table.above,
        columns,
        rows,
        below,
    })
}
