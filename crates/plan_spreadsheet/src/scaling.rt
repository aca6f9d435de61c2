//! Rows in another unit: the durations, and the lags behind plus signs.

ghost use Rattle.std.specs.Prelude.{◌≡◌, ◌≤◌, ◌<◌, ◌++◌, [], Ok, Some, drop, length, map, IfOk, OnOk};
ghost use Rattle.plan_table.specs.Csv.{row_of};
ghost use Rattle.plan_table.specs.Header.{head_of};
ghost use Rattle.plan_table.specs.Limits.{most_rows};
ghost use Rattle.plan_table.specs.Overrides.{override_of};
ghost use Rattle.plan_table.specs.Predecessors.{label_of};
ghost use Rattle.plan_spreadsheet.specs.Scaling as spec;
ghost use Rattle.plan_table.specs.Entries.{place_from};
ghost use Rattle.plan_psplib.specs.Lines.{words as words_of};

use crate::rows::copy_rows;
use crate::units::{behind_first, in_units};
use crate::waiting::{labels_of, place_of};
use crate::waits::{is_named, plus_in, spaced};
use plan_psplib::{Words, trim};
use plan_table::{Column, Head, Label, Override, ReadError, Row, read_heads, settle};
use std::alloc::{AllocError, Global};

// Adds a predecessor and its lag in another unit, if the first part of a word is a predecessor.
fn push_parts(
    alloc: Global,
    unit: u64,
    labels: &[Label],
    text: &mut Vec<u8>,
    word: &[u8],
    plus: usize,
) -> Result<(), AllocError>
    requires few { length labels.now ≤ most_rows }
    requires unit { 0 < unit }
    requires within { plus < length word.now }
    ensures { OnOk result (text.new.items ≡ text.old.items ++ spec.scaled_unknown unit
        (map label_of labels.now) word.now (Some plus)) }
{
    let predecessor = &word[..plus];
    if predecessor.is_empty() || !is_named(labels, predecessor) {
        text.extend_from_slice(word)?;
        return Ok(());
    }
    let lag = in_units(alloc, unit, behind_first(&word[plus..]))?;
    text.extend_from_slice(predecessor)?;
    text.push(b'+')?;
    text.extend_from_slice(&lag)?;
    Ok(())
}

// Adds a word of predecessors in another unit.
#[tactic(auto, unfolding(crate::specs::Scaling::scaled_word))]
fn push_word(
    alloc: Global,
    unit: u64,
    labels: &[Label],
    text: &mut Vec<u8>,
    word: &[u8],
) -> Result<(), AllocError>
    requires few { length labels.now ≤ most_rows }
    requires unit { 0 < unit }
    ensures { OnOk result (text.new.items ≡ text.old.items
        ++ spec.scaled_word unit (map label_of labels.now) word.now) }
{
    if is_named(labels, word) {
        text.extend_from_slice(word)?;
        return Ok(());
    }
    match plus_in(word) {
        Some(plus) => push_parts(alloc, unit, labels, text, word, plus),
        None => Ok(text.extend_from_slice(word)?),
    }
}

// The words of a text in another unit.
#[tactic(auto, unfolding(crate::specs::Scaling::scaled_words))]
fn scaled_words(
    alloc: Global,
    unit: u64,
    labels: &[Label],
    words: &[u8],
) -> Result<Vec<u8>, AllocError>
    requires few { length labels.now ≤ most_rows }
    requires unit { 0 < unit }
    ensures { IfOk result (λ v. v.items ≡ spec.scaled_words unit (map label_of labels.now) []
        (words_of words.now)) }
{
    let mut text = Vec::new(alloc);
    let mut rest = Words::new(words);
    while let Some(word) = rest.next_word() {
        push_word(alloc, unit, labels, &mut text, word)?;
        text.push(b' ')?;
    }
    Ok(text)
}

// A cell of predecessors in another unit. A cell without words stays.
fn scaled_predecessors(
    alloc: Global,
    unit: u64,
    labels: &[Label],
    cell: &[u8],
) -> Result<Vec<u8>, AllocError>
    requires few { length labels.now ≤ most_rows }
    requires unit { 0 < unit }
    ensures { IfOk result (λ v. v.items
        ≡ spec.scaled_predecessors unit (map label_of labels.now) cell.now) }
{
    let words = spaced(alloc, cell)?;
    let text = scaled_words(alloc, unit, labels, &words)?;
    if text.is_empty() {
        return Vec::from_slice(alloc, cell);
    }
    Ok(text)
}

// A cell of a column in another unit.
fn scaled_cell(
    alloc: Global,
    unit: u64,
    labels: &[Label],
    column: Column,
    cell: &[u8],
) -> Result<Vec<u8>, AllocError>
    requires few { length labels.now ≤ most_rows }
    requires unit { 0 < unit }
    ensures { IfOk result (λ v. v.items
        ≡ spec.scaled_cell unit (map label_of labels.now) column cell.now) }
{
    match column {
        Column::Duration => in_units(alloc, unit, trim(cell)),
        Column::Predecessors => scaled_predecessors(alloc, unit, labels, cell),
        _ => Vec::from_slice(alloc, cell),
    }
}

// The kind of column `k`.
#[tactic(auto, using(crate::proofs::RowLemmas::heads_dropped, crate::proofs::RowLemmas::no_heads))]
fn kind_at(heads: &[Head], k: usize) -> Column
    ensures { result ≡ spec.kind_of (drop k (map head_of heads.now)) }
{
    if k >= heads.len() {
        return Column::Nothing;
    }
    kind_of(&heads[k..])
}

// The kind of the first of the columns.
fn kind_of(heads: &[Head]) -> Column
    ensures { result ≡ spec.kind_of (map head_of heads.now) }
{
    match heads {
        [head, ..] => head.column,
        [] => Column::Nothing,
    }
}

// The cells of a row in another unit.
#[tactic(auto, unfolding(crate::specs::Scaling::scaled_from))]
fn scaled_cells(
    alloc: Global,
    unit: u64,
    labels: &[Label],
    heads: &[Head],
    cells: &[Vec<u8>],
) -> Result<Vec<Vec<u8>>, AllocError>
    requires few { length labels.now ≤ most_rows }
    requires unit { 0 < unit }
    ensures { IfOk result (λ v. map (λ cell. cell.items) v.items
        ≡ spec.scaled_from unit (map label_of labels.now) (map head_of heads.now) [] 0
        (map (λ cell. cell.items) cells.now)) }
{
    let mut all = Vec::new(alloc);
    for (k, cell) in cells.iter().enumerate() {
        let column = kind_at(heads, k);
        let copy = scaled_cell(alloc, unit, labels, column, cell)?;
        all.push(copy)?;
    }
    Ok(all)
}

// Rows in another unit.
fn scaled_rows(
    alloc: Global,
    unit: u64,
    labels: &[Label],
    heads: &[Head],
    rows: &[Row],
) -> Result<Vec<Row>, AllocError>
    requires few { length labels.now ≤ most_rows }
    requires unit { 0 < unit }
    ensures { IfOk result (λ v. map row_of v.items ≡ map (spec.scaled_row unit
        (map label_of labels.now) (map head_of heads.now)) (map row_of rows.now)) }
{
    let mut all = Vec::new(alloc);
    for row in rows {
        let cells = scaled_cells(alloc, unit, labels, heads, &row.cells)?;
        all.push(Row {
            line: row.line,
            cells,
        })?;
    }
    Ok(all)
}

// The activities that predecessors can name.
fn named(alloc: Global, heads: &[Head], rows: &[Row]) -> Result<Vec<Label>, AllocError>
    ensures labels { IfOk result (λ v. map label_of v.items ≡ spec.named_at (map head_of heads.now)
        (place_from Column.Id 0 (map head_of heads.now)) (map row_of rows.now)) }
    ensures few { IfOk result (λ v. length v.items ≤ most_rows) }
{
    let Some(ids) = place_of(heads, Column::Id) else {
        return Ok(Vec::new(alloc));
    };
    let labels = labels_of(alloc, ids, place_of(heads, Column::Name), rows)?;
    if labels.len() > 500 {
        return Ok(Vec::new(alloc));
    }
    Ok(labels)
}

// The rows behind a header in another unit, under these columns before they are settled.
fn scaled_under(
    alloc: Global,
    unit: u64,
    overrides: &[Override<'_>],
    heads: &[Head],
    rows: &[Row],
) -> Result<Vec<Row>, AllocError>
    requires { 0 < unit }
    ensures { IfOk result (λ v. map row_of v.items ≡ spec.scaled_by unit
        (map override_of overrides.now) (map row_of rows.now) (Ok (map head_of heads.now))) }
{
    let settled = settle(alloc, overrides, rows, heads)?;
    let labels = named(alloc, &settled, rows)?;
    scaled_rows(alloc, unit, &labels, &settled, rows)
}

/// Returns the rows behind a header in units of so many thousandths.
pub fn scaled(
    alloc: Global,
    unit: u64,
    overrides: &[Override<'_>],
    first: &Row,
    rows: &[Row],
) -> Result<Vec<Row>, AllocError>
    requires { 0 < unit }
    ensures { IfOk result (λ v. map row_of v.items ≡ spec.scaled unit
        (map override_of overrides.now) (row_of first.now) (map row_of rows.now)) }
{
    match read_heads(alloc, first.line, &first.cells) {
        Ok(heads) => scaled_under(alloc, unit, overrides, &heads, rows),
        Err(ReadError::Memory) => Err(AllocError),
        Err(ReadError::Fault(_)) => copy_rows(alloc, rows),
    }
}
