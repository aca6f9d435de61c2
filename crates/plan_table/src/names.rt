//! The ids and names in a project file.

ghost use Rattle.std.specs.Prelude.{◌≡◌, map, IfOk, Option, option_map};
ghost use Rattle.std.specs.List.{position};
ghost use Rattle.plan_psplib.specs.Lines.{is_blank as blank};
ghost use Rattle.plan_table.specs.Names as spec;

use plan_psplib::{Lines, is_blank, number, trim_start};
use std::alloc::{AllocError, Global};

/// A name or an id, and the number of the activity or the resource that has it.
#[derive(Clone, Copy)]
pub struct NameLine<'a> {
    pub number: u64,
    pub name: &'a [u8],
}

// Skips the lines up to the first one that begins with `front`.
fn skip(lines: &mut Lines<'_>, front: &[u8])
    ensures { lines.new ≡ spec.behind front.now lines.old }
{
    while let Some(line) = lines.next_line() {
        if line.text.starts_with(front) {
            return;
        }
    }
}

// The lines of the section of the names.
fn name_section(text: &[u8]) -> Lines<'_>
    ensures { result ≡ spec.name_section text.now }
{
    let mut lines = Lines::new(text);
    skip(&mut lines, b"RESOURCEAVAILABILITIES");
    skip(&mut lines, b"PROJECT INFORMATION");
    lines
}

// Returns the place of the first blank.
fn first_blank(text: &[u8]) -> Option<usize>
    ensures { result ≡ position blank text.now }
{
    text.iter().position(|&byte| is_blank(byte))
}

// The name of a number.
fn numbered_name(number: Option<u64>, name: &[u8]) -> Option<NameLine<'_>>
    ensures { option_map spec.name_of result ≡ spec.numbered_name number name.now }
{
    match number {
        Some(number) if !name.is_empty() => Some(NameLine { number, name }),
        _ => None,
    }
}

// A number, and behind it a name.
fn name_in(text: &[u8]) -> Option<NameLine<'_>>
    ensures { option_map spec.name_of result ≡ spec.name_in text.now }
{
    match first_blank(text) {
        Some(end) => {
            let (word, rest) = text.split_at(end);
            numbered_name(number(word), trim_start(rest))
        }
        None => None,
    }
}

/// Returns the name in a line.
pub fn named<'a>(key: &[u8], text: &'a [u8]) -> Option<NameLine<'a>>
    ensures { option_map spec.name_of result ≡ spec.named key.now text.now }
{
    if text.starts_with(key) {
        name_in(trim_start(&text[key.len()..]))
    } else {
        None
    }
}

// The names behind a key.
fn names_behind<'a>(
    alloc: Global,
    key: &[u8],
    text: &'a [u8],
) -> Result<Vec<NameLine<'a>>, AllocError>
    ensures { IfOk result (λ names. map spec.name_of names.items
        ≡ spec.names_behind key.now text.now) }
{
    let mut names = Vec::new(alloc);
    let mut lines = name_section(text);
    while let Some(line) = lines.next_line() {
        if let Some(name) = named(key, line.text) {
            names.push(name)?;
        }
    }
    Ok(names)
}

/// The names of activities in a project file, in the order of their lines. The first name of a
/// number counts.
pub fn activity_names(alloc: Global, text: &[u8]) -> Result<Vec<NameLine<'_>>, AllocError>
    ensures { IfOk result (λ names. map spec.name_of names.items
        ≡ spec.names_behind spec.activity_key text.now) }
{
    names_behind(alloc, b"name ", text)
}

/// The ids of activities in a project file, in the order of their lines. The first id of a number
/// counts.
pub fn activity_ids(alloc: Global, text: &[u8]) -> Result<Vec<NameLine<'_>>, AllocError>
    ensures { IfOk result (λ ids. map spec.name_of ids.items
        ≡ spec.names_behind spec.id_key text.now) }
{
    names_behind(alloc, b"id ", text)
}

/// The names of resources in a project file, in the order of their lines. The first name of a
/// number counts.
pub fn resource_names(alloc: Global, text: &[u8]) -> Result<Vec<NameLine<'_>>, AllocError>
    ensures { IfOk result (λ names. map spec.name_of names.items
        ≡ spec.names_behind spec.resource_key text.now) }
{
    names_behind(alloc, b"resource ", text)
}

/// The first name of number `n`.
pub fn first_name<'a>(names: &[NameLine<'a>], n: u64) -> Option<&'a [u8]>
    ensures { option_map (λ name. name.now) result
        ≡ option_map (λ name. name.name) (spec.first_name n (map spec.name_of names.now)) }
{
    for name in names {
        if name.number == n {
            return Some(name.name);
        }
    }
    None
}
