//! Predecessors in a cell: activities by their ids, or by a name that one activity alone has.

ghost use Rattle.std.specs.Prelude.{◌≡◌, ◌≤◌, length, map, IfOk};
ghost use Rattle.std.specs.List.{list_any};
ghost use Rattle.plan_table.specs.Cells as cells;
ghost use Rattle.plan_table.specs.Limits.{most_rows};
ghost use Rattle.plan_table.specs.Predecessors as spec;
ghost use Rattle.plan_table.specs.Reading.{Gives};

use crate::cells::{is_printable, same, word_fault};
use crate::fault::{ReadError, TableCode};
use plan_psplib::Words;
use std::alloc::{AllocError, Global};

/// The id and the name of an activity, by which other rows can refer to it.
#[derive(Drop)]
pub struct Label {
    pub id: Vec<u8>,
    pub name: Vec<u8>,
}

// A space in place of what stands between ids.
fn as_blank(byte: u8) -> u8
    ensures { result ≡ cells.as_blank byte }
{
    match byte {
        b',' | b';' | b'\n' => b' ',
        other => other,
    }
}

// A cell with spaces in place of what stands between ids.
fn with_blanks(alloc: Global, cell: &[u8]) -> Result<Vec<u8>, AllocError>
    ensures { IfOk result (λ v. v.items ≡ map cells.as_blank cell.now) }
{
    let mut text = Vec::new(alloc);
    for &byte in cell {
        text.push(as_blank(byte))?;
    }
    Ok(text)
}

// The number of the first activity with an id.
fn number_of(labels: &[Label], word: &[u8]) -> Option<u32>
    requires { length labels.now ≤ most_rows }
    ensures { result ≡ spec.number_from 2 (map spec.label_of labels.now) word.now }
{
    for (k, label) in labels.iter().enumerate() {
        if same(&label.id, word) {
            return Some(k as u32 + 2);
        }
    }
    None
}

// Whether an activity has a name.
fn is_name_in(labels: &[Label], word: &[u8]) -> bool
    ensures { result ≡ list_any (spec.has_name word.now) (map spec.label_of labels.now) }
{
    for label in labels {
        if same(&label.name, word) {
            return true;
        }
    }
    false
}

// A number, unless it is one of several.
fn if_alone(again: bool, n: u32) -> Option<u32>
    ensures { result ≡ spec.if_alone again n }
{
    if again { None } else { Some(n) }
}

// The number of the only activity with a name.
fn named(labels: &[Label], word: &[u8]) -> Option<u32>
    requires { length labels.now ≤ most_rows }
    ensures { result ≡ spec.named_from 2 (map spec.label_of labels.now) word.now }
{
    for (k, label) in labels.iter().enumerate() {
        if same(&label.name, word) {
            return if_alone(is_name_in(&labels[k + 1..], word), k as u32 + 2);
        }
    }
    None
}

/// The number of the activity with an id, or else of the only one with this name.
#[tactic(auto, unfolding(crate::specs::Predecessors::number_by))]
pub fn number_by(labels: &[Label], word: &[u8]) -> Option<u32>
    requires { length labels.now ≤ most_rows }
    ensures { result ≡ spec.number_by (map spec.label_of labels.now) word.now }
{
    match number_of(labels, word) {
        Some(n) => Some(n),
        None => named(labels, word),
    }
}

// The number of the activity that a word names if `FS` at its end is dropped.
fn linked(labels: &[Label], word: &[u8]) -> Option<u32>
    requires { length labels.now ≤ most_rows }
    ensures { result ≡ spec.linked (map spec.label_of labels.now) word.now }
{
    let end = word.len().saturating_sub(2);
    if same(&word[end..], b"FS") {
        number_by(labels, &word[..end])
    } else {
        None
    }
}

// The number of the activity that a word names, if need be without `FS` at its end.
fn activity_named(labels: &[Label], word: &[u8]) -> Option<u32>
    requires { length labels.now ≤ most_rows }
    ensures { result ≡ spec.or_else (spec.number_by (map spec.label_of labels.now) word.now)
        (spec.linked (map spec.label_of labels.now) word.now) }
{
    match number_by(labels, word) {
        Some(n) => Some(n),
        None => linked(labels, word),
    }
}

// The number of a predecessor.
#[tactic(auto, unfolding(crate::specs::Predecessors::predecessor))]
fn predecessor(alloc: Global, labels: &[Label], line: u64, word: &[u8]) -> Result<u32, ReadError>
    requires { length labels.now ≤ most_rows }
    ensures { Gives (λ n. n) result (spec.predecessor (map spec.label_of labels.now)
        line word.now) }
{
    if !is_printable(word) {
        return Err(word_fault(alloc, TableCode::NotText, line, b""));
    }
    match activity_named(labels, word) {
        Some(n) => Ok(n),
        None => Err(word_fault(alloc, TableCode::NoSuchId, line, word)),
    }
}

/// The numbers of the predecessors in a cell.
#[tactic(auto, unfolding(crate::specs::Predecessors::predecessors_at))]
pub fn predecessors(
    alloc: Global,
    labels: &[Label],
    line: u64,
    cell: &[u8],
) -> Result<Vec<u32>, ReadError>
    requires { length labels.now ≤ most_rows }
    ensures { Gives (λ v. v.items) result (spec.predecessors (map spec.label_of labels.now)
        line cell.now) }
{
    let text = with_blanks(alloc, cell)?;
    let mut words = Words::new(&text);
    let mut numbers = Vec::new(alloc);
    while let Some(word) = words.next_word() {
        let number = predecessor(alloc, labels, line, word)?;
        numbers.push(number)?;
    }
    Ok(numbers)
}
