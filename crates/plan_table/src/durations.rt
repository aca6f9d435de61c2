//! Durations as planners write them: a number, and perhaps a word for days behind it.

ghost use Rattle.std.specs.Prelude.{◌≡◌, ◌≤◌, map, IfOk};
ghost use Rattle.std.specs.List.{list_any};
ghost use Rattle.plan_psplib.specs.Numbers as numbers;
ghost use Rattle.plan_table.specs.Cells as cells;
ghost use Rattle.plan_table.specs.Durations as spec;
ghost use Rattle.plan_table.specs.Reading.{Gives};

use crate::cells::{same_name, word_fault};
use crate::fault::{ReadError, TableCode};
use plan_psplib::{GREATEST_AMOUNT, number, trim};
use std::alloc::Global;

/// Words for days in English, German, French and Spanish.
const DAY_WORDS: [&[u8]; 9] = [
    b"d",
    b"day",
    b"days",
    b"tag",
    b"tage",
    b"jour",
    b"jours",
    b"d\xc3\xada",
    b"d\xc3\xadas",
];

/// Whether a text is among words, without regard to ASCII case.
pub fn is_among(words: &[&[u8]], text: &[u8]) -> bool
    ensures { result ≡ list_any (λ word. cells.same_name word text.now)
        (map (λ word. word.now) words.now) }
{
    for &word in words {
        if same_name(word, text) {
            return true;
        }
    }
    false
}

// Whether a text is a word for days, or empty.
fn is_unit(text: &[u8]) -> bool
    ensures { result ≡ spec.is_unit text.now }
{
    text.is_empty() || is_among(&DAY_WORDS, text)
}

// A text without a fraction of zero at its front.
fn without_zero(text: &[u8]) -> &[u8]
    ensures { result.now ≡ spec.without_zero text.now }
{
    if text.starts_with(b",0") || text.starts_with(b".0") {
        &text[2..]
    } else {
        text
    }
}

// Whether a text can follow the digits of a duration.
fn is_behind_digits(text: &[u8]) -> bool
    ensures { result ≡ spec.is_behind_digits text.now }
{
    is_unit(trim(without_zero(text)))
}

// Whether a byte is a digit.
fn is_digit(byte: u8) -> bool
    ensures { result ≡ numbers.is_digit byte }
{
    byte >= 48 && byte <= 57
}

// Returns the end of the digits at the front of a cell, if something follows them.
fn digits_end(cell: &[u8]) -> Option<usize>
    ensures { result ≡ spec.digits_end cell.now }
{
    cell.iter().position(|&byte| !is_digit(byte))
}

// The days in a cell, if it is a duration.
#[tactic(auto, unfolding(crate::specs::Durations::days_in))]
fn days_in(cell: &[u8]) -> Option<u64>
    ensures { result ≡ spec.days_in cell.now }
{
    match digits_end(cell) {
        None => number(cell),
        Some(end) if is_behind_digits(&cell[end..]) => number(&cell[..end]),
        Some(_) => None,
    }
}

/// The duration in a cell: digits, perhaps `,0` or `.0`, blanks, and perhaps a word for days.
#[tactic(auto, unfolding(crate::specs::Durations::duration))]
pub fn duration(alloc: Global, line: u64, cell: &[u8]) -> Result<u32, ReadError>
    ensures exact { Gives (λ n. n) result (spec.duration line cell.now) }
    ensures fits { IfOk result (λ n. n ≤ 10000) }
{
    match days_in(cell) {
        None => Err(word_fault(alloc, TableCode::BadDuration, line, cell)),
        Some(n) if n > GREATEST_AMOUNT => Err(word_fault(alloc, TableCode::Limit, line, b"")),
        Some(n) => Ok(n as u32),
    }
}
