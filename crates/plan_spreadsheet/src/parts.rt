//! The parts of a cell with names of resources: a name each, perhaps with an amount in brackets.

ghost use Rattle.std.specs.Prelude.{◌≡◌, ◌<◌, [], length, map, IfOk, IfSome, OnOk};
ghost use Rattle.plan_table.specs.Cells as cells;
ghost use Rattle.plan_spreadsheet.specs.Assignments as spec;

use plan_psplib::trim;
use plan_table::same;
use std::alloc::{AllocError, Global};
use std::mem::replace;

// Whether a byte stands between names of resources.
fn is_separator(byte: u8) -> bool
    ensures { result ≡ cells.is_separator byte }
{
    byte == b',' || byte == b';' || byte == b'\n'
}

// Adds a part, unless it is blank.
fn push_part(alloc: Global, parts: &mut Vec<Vec<u8>>, part: &[u8]) -> Result<(), AllocError>
    ensures { OnOk result (map (λ part. part.items) parts.new.items
        ≡ spec.with_part (map (λ part. part.items) parts.old.items) part.now) }
{
    let part = trim(part);
    if part.is_empty() {
        return Ok(());
    }
    let copy = Vec::from_slice(alloc, part)?;
    parts.push(copy)?;
    Ok(())
}

/// Returns the parts of a cell between separators, without blanks at their ends.
#[tactic(auto, unfolding(crate::specs::Assignments::parts_from))]
pub fn parts(alloc: Global, cell: &[u8]) -> Result<Vec<Vec<u8>>, AllocError>
    ensures { IfOk result (λ v. map (λ part. part.items) v.items ≡ spec.parts cell.now) }
{
    let mut parts = Vec::new(alloc);
    let mut part = Vec::new(alloc);
    for &byte in cell {
        if is_separator(byte) {
            let whole = replace(&mut part, Vec::new(alloc));
            push_part(alloc, &mut parts, &whole)?;
        } else {
            part.push(byte)?;
        }
    }
    push_part(alloc, &mut parts, &part)?;
    Ok(parts)
}

// Returns the place of the first bracket of a part.
fn bracket(part: &[u8]) -> Option<usize>
    ensures place { result ≡ spec.bracket part.now }
    ensures within { IfSome result (λ k. k < length part.now) }
{
    part.iter().position(|&byte| byte == b'[')
}

// Returns the bytes behind the bracket at `k`, without the last one.
fn inside(k: usize, part: &[u8]) -> &[u8]
    requires { k < length part.now }
    ensures { result.now ≡ spec.inside k part.now }
{
    let front = &part[..part.len().saturating_sub(1)];
    if k >= front.len() {
        return b"";
    }
    &front[k + 1..]
}

// Whether a part ends with a bracket.
fn is_closed(part: &[u8]) -> bool
    ensures { result ≡ spec.is_closed part.now }
{
    same(&part[part.len().saturating_sub(1)..], b"]")
}

// Whether a part has a name before the bracket at `k`, and an amount behind it.
fn has_amount(k: usize, part: &[u8]) -> bool
    requires { k < length part.now }
    ensures { result ≡ spec.has_amount k part.now }
{
    k != 0 && is_closed(part) && !trim(inside(k, part)).is_empty()
}

/// Returns the resource that a part names.
pub fn name_of(part: &[u8]) -> &[u8]
    ensures { result.now ≡ spec.name_of part.now }
{
    match bracket(part) {
        Some(k) if has_amount(k, part) => trim(&part[..k]),
        _ => part,
    }
}

/// Returns how much of a resource a part says: 1 without brackets.
pub fn amount_of(part: &[u8]) -> &[u8]
    ensures { result.now ≡ spec.amount_of part.now }
{
    match bracket(part) {
        Some(k) if has_amount(k, part) => inside(k, part),
        _ => b"1",
    }
}
