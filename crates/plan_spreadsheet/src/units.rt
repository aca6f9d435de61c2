//! Durations and lags as decimal numbers, in another unit than days.

ghost use Rattle.std.specs.Prelude.{◌≡◌, ◌<◌, ◌≤◌, drop, IfOk, IfSome};
ghost use Rattle.plan_spreadsheet.specs.Units as spec;

use crate::lags::{digits_end, is_digit, is_unit};
use plan_psplib::{number, trim};
use std::alloc::{AllocError, Global};

// Whether a text begins with a point or a comma.
fn is_pointed(text: &[u8]) -> bool
    ensures { result ≡ spec.is_pointed text.now }
{
    text.starts_with(b".") || text.starts_with(b",")
}

// The thousandths that a number of so many digits behind a point is.
fn thousandths(count: usize, n: u64) -> u64
    requires { n ≤ 999 }
    ensures value { result ≡ spec.thousandths count n }
    ensures limit { result ≤ 99900 }
{
    match count {
        1 => n * 100,
        2 => n * 10,
        _ => n,
    }
}

// A number up to a limit.
fn small(limit: u64, number: Option<u64>) -> Option<u64>
    ensures value { result ≡ spec.small limit number }
    ensures within { IfSome result (λ n. n ≤ limit) }
{
    match number {
        Some(n) if n <= limit => Some(n),
        _ => None,
    }
}

/// Returns a text without its first byte.
pub fn behind_first(text: &[u8]) -> &[u8]
    ensures { result.now ≡ drop 1 text.now }
{
    match text {
        [_, rest @ ..] => rest,
        [] => text,
    }
}

// A number and the digits behind its point, in thousandths; `None` if there are too many digits.
fn joined_if(most: usize, front: &[u8], digits: &[u8]) -> Option<u64>
    ensures { result ≡ spec.joined_if most front.now digits.now }
{
    if digits.len() > most {
        return None;
    }
    match (small(1_000_000, number(front)), small(999, number(digits))) {
        (Some(n), Some(m)) => Some(n * 1000 + thousandths(digits.len(), m)),
        _ => None,
    }
}

/// Returns the thousandths of a decimal number up to 1,000,000, with at most so many digits behind
/// its point or comma.
pub fn decimal(most: usize, text: &[u8]) -> Option<u64>
    ensures { result ≡ spec.decimal most text.now }
{
    match digits_end(text) {
        None => match small(1_000_000, number(text)) {
            Some(n) => Some(n * 1000),
            None => None,
        },
        Some(end) if is_pointed(&text[end..]) => {
            joined_if(most, &text[..end], behind_first(&text[end..]))
        }
        Some(_) => None,
    }
}

// Returns the place behind the number at the front of a cell, if something follows it.
fn number_end(cell: &[u8]) -> Option<usize>
    ensures { result ≡ spec.number_end cell.now }
{
    cell.iter()
        .position(|&byte| !is_digit(byte) && byte != b',' && byte != b'.')
}

// The thousandths in a cell.
#[tactic(auto, unfolding(crate::specs::Units::value))]
fn value(cell: &[u8]) -> Option<u64>
    ensures { result ≡ spec.value cell.now }
{
    match number_end(cell) {
        None => decimal(2, cell),
        Some(end) if is_unit(trim(&cell[end..])) => decimal(2, &cell[..end]),
        Some(_) => None,
    }
}

// So many thousandths in units, or a text that is no duration.
fn counted(alloc: Global, unit: u64, cell: &[u8], n: u64) -> Result<Vec<u8>, AllocError>
    requires { 0 < unit }
    ensures { IfOk result (λ v. v.items ≡ spec.counted unit cell.now n) }
{
    if n % unit == 0 {
        let count = n / unit;
        let digits = format!(in alloc; "{count}")?;
        return Vec::from_slice(alloc, digits.as_bytes());
    }
    let mut text = Vec::from_slice(alloc, cell)?;
    text.extend_from_slice(b"/unit")?;
    Ok(text)
}

/// Returns a cell in units of so many thousandths; one that is no number stays.
#[tactic(auto, unfolding(crate::specs::Units::in_units))]
pub fn in_units(alloc: Global, unit: u64, cell: &[u8]) -> Result<Vec<u8>, AllocError>
    requires { 0 < unit }
    ensures { IfOk result (λ v. v.items ≡ spec.in_units unit cell.now) }
{
    match value(cell) {
        Some(n) => counted(alloc, unit, cell, n),
        None => Vec::from_slice(alloc, cell),
    }
}
