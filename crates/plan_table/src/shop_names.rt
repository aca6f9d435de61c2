//! The names in a job shop file.

ghost use Rattle.std.specs.Prelude.{◌≡◌, map, IfOk};
ghost use Rattle.plan_orlib.specs.Instances.{instance_name, is_before_description as is_before, is_name};
ghost use Rattle.plan_table.specs.Names.{name_of};
ghost use Rattle.plan_table.specs.ShopNames as spec;

use crate::names::{NameLine, named};
use plan_psplib::{Lines, Words};
use std::alloc::{AllocError, Global};

// Whether a line is the instance line of a name.
fn is_instance_of(line: &[u8], name: &[u8]) -> bool
    ensures { result ≡ is_name name.now (instance_name line.now) }
{
    let mut words = Words::new(line);
    let (Some(first), Some(second)) = (words.next_word(), words.next_word()) else {
        return false;
    };
    words.next_word().is_none() && first == b"instance".as_slice() && second == name
}

// Whether a line may precede a description.
fn is_before_description(line: &[u8]) -> bool
    ensures { result ≡ is_before line.now }
{
    match line {
        [first, ..] => *first == b'+',
        [] => true,
    }
}

// Skips the lines up to the first instance line of a name.
fn skip_to(lines: &mut Lines<'_>, name: &[u8])
    ensures { lines.new ≡ spec.behind_instance name.now lines.old }
{
    while let Some(line) = lines.next_line() {
        if is_instance_of(line.text, name) {
            return;
        }
    }
}

// The names behind a key in an instance.
fn instance_names<'a>(
    alloc: Global,
    key: &[u8],
    instance: &[u8],
    text: &'a [u8],
) -> Result<Vec<NameLine<'a>>, AllocError>
    ensures { IfOk result (λ names. map name_of names.items
        ≡ spec.instance_names key.now instance.now text.now) }
{
    let mut names = Vec::new(alloc);
    let mut lines = Lines::new(text);
    skip_to(&mut lines, instance);
    while let Some(line) = lines.next_line() {
        if !is_before_description(line.text) {
            return Ok(names);
        }
        if let Some(name) = named(key, line.text) {
            names.push(name)?;
        }
    }
    Ok(names)
}

/// The names of machines in an instance of a job shop file, in the order of their lines. Machines
/// are numbered from 0. The first name of a number counts.
pub fn machine_names<'a>(
    alloc: Global,
    text: &'a [u8],
    instance: &[u8],
) -> Result<Vec<NameLine<'a>>, AllocError>
    ensures { IfOk result (λ names. map name_of names.items
        ≡ spec.instance_names spec.machine_key instance.now text.now) }
{
    instance_names(alloc, b"+ machine ", instance, text)
}

/// The names of orders in an instance of a job shop file, in the order of their lines. The number of
/// an order is that of its job, from 1. The first name of a number counts.
pub fn order_names<'a>(
    alloc: Global,
    text: &'a [u8],
    instance: &[u8],
) -> Result<Vec<NameLine<'a>>, AllocError>
    ensures { IfOk result (λ names. map name_of names.items
        ≡ spec.instance_names spec.order_key instance.now text.now) }
{
    instance_names(alloc, b"+ job ", instance, text)
}
