//! Predecessors with a lag, such as `12FS+2d`: the cell names a waiting row in their place.

ghost use Rattle.std.specs.Prelude.{◌≡◌, ◌≤◌, [], drop, length, map, IfOk, OnOk};
ghost use Rattle.plan_table.specs.Cells as cells;
ghost use Rattle.plan_table.specs.Limits.{most_rows};
ghost use Rattle.plan_table.specs.Predecessors.{label_of};
ghost use Rattle.plan_spreadsheet.specs.Waits as spec;

use crate::lags::{is_lag, is_unit};
use crate::units::behind_first;
use plan_psplib::Words;
use plan_table::{Label, number_by, same};
use std::alloc::{AllocError, Global};

/// A wait: the predecessor as its cell names it, and the lag.
#[derive(Drop)]
pub struct Wait {
    pub predecessor: Vec<u8>,
    pub lag: Vec<u8>,
}

/// The words of a cell so far, each with a space behind it, all waits so far, and whether a wait is
/// the last word.
#[derive(Drop)]
pub struct Links {
    pub text: Vec<u8>,
    pub waits: Vec<Wait>,
    pub behind: bool,
}

// Whether a word without the link type `FS` at its end names an activity.
fn is_linked(labels: &[Label], word: &[u8]) -> bool
    requires { length labels.now ≤ most_rows }
    ensures { result ≡ spec.is_linked (map label_of labels.now) word.now }
{
    let end = word.len().saturating_sub(2);
    same(&word[end..], b"FS") && number_by(labels, &word[..end]).is_some()
}

/// Whether a word names an activity.
pub fn is_named(labels: &[Label], word: &[u8]) -> bool
    requires { length labels.now ≤ most_rows }
    ensures { result ≡ spec.is_named (map label_of labels.now) word.now }
{
    number_by(labels, word).is_some() || is_linked(labels, word)
}

/// The id of a waiting row.
pub fn wait_id(alloc: Global, k: usize) -> Result<Vec<u8>, AllocError>
    ensures { IfOk result (λ v. v.items ≡ spec.wait_id k) }
{
    let digits = format!(in alloc; "{k}")?;
    let mut id = Vec::from_slice(alloc, b"wait+")?;
    id.extend_from_slice(digits.as_bytes())?;
    Ok(id)
}

// Adds a word that stays.
fn push_text(links: &mut Links, word: &[u8]) -> Result<(), AllocError>
    ensures { OnOk result (spec.links_of links.new
        ≡ spec.with_text (spec.links_of links.old) word.now) }
{
    links.text.extend_from_slice(word)?;
    links.text.push(b' ')?;
    links.behind = false;
    Ok(())
}

// Adds a wait.
fn push_wait(
    alloc: Global,
    links: &mut Links,
    predecessor: &[u8],
    lag: &[u8],
) -> Result<(), AllocError>
    ensures { OnOk result (spec.links_of links.new
        ≡ spec.with_wait (spec.links_of links.old) predecessor.now lag.now) }
{
    let id = wait_id(alloc, links.waits.as_slice().len())?;
    let predecessor = Vec::from_slice(alloc, predecessor)?;
    let lag = Vec::from_slice(alloc, lag)?;
    links.text.extend_from_slice(&id)?;
    links.text.push(b' ')?;
    links.waits.push(Wait { predecessor, lag })?;
    links.behind = true;
    Ok(())
}

/// Returns the place of the first plus sign of a word.
pub fn plus_in(word: &[u8]) -> Option<usize>
    ensures { result ≡ spec.plus_in word.now }
{
    word.iter().position(|&byte| byte == b'+')
}

// Whether two parts of a word are a predecessor and a lag.
fn is_wait(labels: &[Label], predecessor: &[u8], lag: &[u8]) -> bool
    requires { length labels.now ≤ most_rows }
    ensures { result ≡ spec.is_wait (map label_of labels.now) predecessor.now lag.now }
{
    !predecessor.is_empty() && is_named(labels, predecessor) && is_lag(lag)
}

// Adds a word that has two parts with a plus sign between them.
fn push_parts(
    alloc: Global,
    labels: &[Label],
    links: &mut Links,
    word: &[u8],
    predecessor: &[u8],
    lag: &[u8],
) -> Result<(), AllocError>
    requires { length labels.now ≤ most_rows }
    ensures { OnOk result (spec.links_of links.new ≡ spec.with_parts (map label_of labels.now)
        (spec.links_of links.old) word.now predecessor.now lag.now) }
{
    if is_wait(labels, predecessor, lag) {
        push_wait(alloc, links, predecessor, lag)
    } else {
        push_text(links, word)
    }
}

// Adds a word that names no activity.
fn push_unknown(
    alloc: Global,
    labels: &[Label],
    links: &mut Links,
    word: &[u8],
) -> Result<(), AllocError>
    requires { length labels.now ≤ most_rows }
    ensures { OnOk result (spec.links_of links.new ≡ spec.with_unknown (map label_of labels.now)
        (spec.links_of links.old) word.now (spec.plus_in word.now)) }
{
    match plus_in(word) {
        Some(plus) => push_parts(
            alloc,
            labels,
            links,
            word,
            &word[..plus],
            behind_first(&word[plus..]),
        ),
        None => push_text(links, word),
    }
}

// Adds a word that is no separator. A word for days behind a wait belongs to its lag.
#[tactic(auto, unfolding(crate::specs::Waits::with_content))]
fn push_content(
    alloc: Global,
    labels: &[Label],
    links: &mut Links,
    word: &[u8],
) -> Result<(), AllocError>
    requires { length labels.now ≤ most_rows }
    ensures { OnOk result (spec.links_of links.new ≡ spec.with_content
        (map label_of labels.now) (spec.links_of links.old) word.now) }
{
    if is_named(labels, word) {
        return push_text(links, word);
    }
    if links.behind && is_unit(word) {
        links.behind = false;
        return Ok(());
    }
    push_unknown(alloc, labels, links, word)
}

// Adds a word.
#[tactic(auto, unfolding(crate::specs::Waits::with_word))]
fn push_word(
    alloc: Global,
    labels: &[Label],
    links: &mut Links,
    word: &[u8],
) -> Result<(), AllocError>
    requires { length labels.now ≤ most_rows }
    ensures { OnOk result (spec.links_of links.new ≡ spec.with_word (map label_of labels.now)
        (spec.links_of links.old) word.now) }
{
    if same(word, b",") {
        links.behind = false;
        return Ok(());
    }
    push_content(alloc, labels, links, word)
}

// Whether a byte stands between predecessors.
fn is_separator(byte: u8) -> bool
    ensures { result ≡ cells.is_separator byte }
{
    byte == b',' || byte == b';' || byte == b'\n'
}

// Adds a byte; one that stands between predecessors becomes a word of its own.
fn push_byte(text: &mut Vec<u8>, byte: u8) -> Result<(), AllocError>
    ensures { OnOk result (text.new.items ≡ spec.with_byte text.old.items byte) }
{
    if !is_separator(byte) {
        text.push(byte)?;
        return Ok(());
    }
    text.push(b' ')?;
    text.push(b',')?;
    text.push(b' ')?;
    Ok(())
}

/// A cell in which each separator is a word.
#[tactic(auto, unfolding(crate::specs::Waits::spaced_from))]
pub fn spaced(alloc: Global, cell: &[u8]) -> Result<Vec<u8>, AllocError>
    ensures { IfOk result (λ v. v.items ≡ spec.spaced_from [] cell.now) }
{
    let mut text = Vec::new(alloc);
    for &byte in cell {
        push_byte(&mut text, byte)?;
    }
    Ok(text)
}

// Adds the words of a text.
#[tactic(auto, unfolding(crate::specs::Waits::with_words))]
fn push_words(
    alloc: Global,
    labels: &[Label],
    waits: Vec<Wait>,
    text: &[u8],
) -> Result<Links, AllocError>
    requires { length labels.now ≤ most_rows }
    ensures { IfOk result (λ l. spec.links_of l ≡ spec.with_all (map label_of labels.now)
        (map spec.wait_of waits.items) text.now) }
{
    let mut links = Links {
        text: Vec::new(alloc),
        waits,
        behind: false,
    };
    let mut words = Words::new(text);
    while let Some(word) = words.next_word() {
        push_word(alloc, labels, &mut links, word)?;
    }
    Ok(links)
}

/// The words of a cell, behind the waits of earlier cells.
pub fn link_cell(
    alloc: Global,
    labels: &[Label],
    waits: Vec<Wait>,
    cell: &[u8],
) -> Result<Links, AllocError>
    requires { length labels.now ≤ most_rows }
    ensures { IfOk result (λ l. spec.links_of l ≡ spec.with_cell (map label_of labels.now)
        (map spec.wait_of waits.items) cell.now) }
{
    let text = spaced(alloc, cell)?;
    push_words(alloc, labels, waits, &text)
}
