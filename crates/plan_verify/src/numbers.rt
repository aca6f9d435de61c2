//! Numbers, literals and members in the words of a line.

use crate::fault::LineFault;
use plan_kernel::{LIMIT, Literal, Member};
use plan_psplib::Words;

/// The most digits of a number.
const MOST_DIGITS: usize = 10;

// Returns the number that a word spells: one to ten decimal digits.
fn spelled(word: &[u8]) -> Option<u32> {
    if word.is_empty() || word.len() > MOST_DIGITS {
        return None;
    }
    let mut value: u64 = 0;
    for &byte in word {
        if !byte.is_ascii_digit() {
            return None;
        }
        value = value
            .saturating_mul(10)
            .saturating_add((byte - b'0') as u64);
    }
    u32::try_from(value).ok()
}

/// Returns the number that a word spells.
pub fn number_of(word: &[u8]) -> Result<u32, LineFault> {
    spelled(word).ok_or(LineFault::Unreadable)
}

/// Returns the next word as a number.
pub fn number(words: &mut Words<'_>) -> Result<u32, LineFault> {
    match words.next_word() {
        Some(word) => number_of(word),
        None => Err(LineFault::Unreadable),
    }
}

/// Returns a number that is counted from 1, counted from 0.
pub fn place_of(number: u32) -> Result<u32, LineFault> {
    number.checked_sub(1).ok_or(LineFault::Unreadable)
}

/// Returns the next word as a number that is counted from 1, counted from 0.
pub fn place(words: &mut Words<'_>) -> Result<u32, LineFault> {
    place_of(number(words)?)
}

/// Refuses words that are left over.
pub fn end(words: &mut Words<'_>) -> Result<(), LineFault> {
    match words.next_word() {
        Some(_) => Err(LineFault::Unreadable),
        None => Ok(()),
    }
}

// Returns the index of a byte in a word.
fn index_of(word: &[u8], byte: u8) -> Option<usize> {
    word.iter().position(|&other| other == byte)
}

// Returns the bytes in front of a separator and behind it.
fn parts(word: &[u8], separator: u8) -> Result<(&[u8], &[u8]), LineFault> {
    match index_of(word, separator) {
        Some(place) if place < word.len() => Ok((&word[..place], &word[place + 1..])),
        _ => Err(LineFault::Unreadable),
    }
}

/// Returns the member of a window that a word spells: `I*T`.
pub fn member_of(word: &[u8]) -> Result<Member, LineFault> {
    let (activity, time) = parts(word, b'*')?;
    Ok(Member {
        activity: place_of(number_of(activity)?)?,
        time: number_of(time)?,
    })
}

/// A word that begins with a half: `X>=` or `X<=`.
#[derive(Clone, Copy)]
pub struct HalfWord<'a> {
    pub half: u32,
    /// The rest of the word.
    pub rest: &'a [u8],
}

/// Returns the half at the front of a word.
pub fn half_of(word: &[u8]) -> Result<HalfWord<'_>, LineFault> {
    let (front, rest) = parts(word, b'=')?;
    let (quantity, side) = match front {
        [quantity @ .., b'>'] => (quantity, 0),
        [quantity @ .., b'<'] => (quantity, 1),
        _ => return Err(LineFault::Unreadable),
    };
    let even = place_of(number_of(quantity)?)?.checked_mul(2);
    Ok(HalfWord {
        half: even.ok_or(LineFault::Unreadable)? | side,
        rest,
    })
}

/// Returns the negation of the literal that a word spells: `X>=V` or `X<=V`.
pub fn negation_of(word: &[u8]) -> Result<Literal, LineFault> {
    let HalfWord { half, rest } = half_of(word)?;
    let bound = number_of(rest)?;
    let value = if half % 2 == 0 {
        LIMIT.saturating_add(1).checked_sub(bound)
    } else {
        bound.checked_add(1)
    };
    Ok(Literal {
        half: half ^ 1,
        value: value.ok_or(LineFault::Unreadable)?,
    })
}
