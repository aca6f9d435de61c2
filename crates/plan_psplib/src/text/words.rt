//! Words of a line.

ghost use Rattle.std.specs.Prelude.{◌≡◌, ◌<◌, ◌≤◌, true, [], ◌∷◌, length, drop, slice_index, IsTrue, IfSome, MatchOption};
ghost use Rattle.std.specs.List.{position};
ghost use Rattle.plan_psplib.specs.Lines as spec;
ghost use Rattle.plan_psplib.specs.Numbers.{BeginsWithNumber};

use crate::text::lines::{is_blank, trim_start};
use crate::text::numbers::leading_digits;
use std::marker::Model;

/// The remaining words of a line, in order. Words are separated by blanks.
#[derive(Drop)]
pub struct Words<'a> {
    rest: &'a [u8],
}

impl<'a> Model for Words<'a> {
    ghost use Rattle.std.specs.Prelude.{List, ℕ};
    ghost use Rattle.plan_psplib.specs.Lines.{words};

    ghost Value = { List (List ℕ) };

    ghost view = { λ left. words left.rest.now };
}

impl<'a> Words<'a> {
    /// All words of a line.
    pub fn new(line: &'a [u8]) -> Words<'a>
        ensures { result ≡ spec.words line.now }
    {
        Words { rest: line }
    }

    /// Tests whether no byte of the line is left, and so no word.
    pub fn is_at_end(&self) -> bool
        ensures { IsTrue result → self.now ≡ [] }
    {
        self.rest.is_empty()
    }

    /// Returns the next word, if there is one.
    #[tactic(auto, using(crate::proofs::CutLemmas::word_starts))]
    pub fn next_word(&mut self) -> Option<&'a [u8]>
        ensures { MatchOption result ((self.old ≡ []) × (self.new ≡ []))
            (λ word. self.old ≡ word.now ∷ self.new) }
    {
        let text = trim_start(self.rest);
        if text.is_empty() {
            return None;
        }
        let (word, rest) = cut_word(text);
        self.rest = rest;
        Some(word)
    }

    /// Returns the next word as a number. If it isn't one, returns `None` and takes no word.
    #[inline]
    pub fn next_number(&mut self) -> Option<u64>
        ensures { MatchOption result (self.new ≡ self.old)
            (λ n. BeginsWithNumber self.old n self.new) }
    {
        let text = from_word(self.rest);
        let (count, value) = leading_digits(text);
        if count == 0 {
            return None;
        }
        let rest = after_word(text, count)?;
        self.rest = rest;
        Some(value)
    }
}

// A text without the blanks at its front. Most texts have none, and then this calls nothing.
#[inline]
fn from_word(text: &[u8]) -> &[u8]
    ensures { result.now ≡ spec.trim_start text.now }
{
    match text {
        [first, ..] if !is_blank(*first) => text,
        _ => trim_start(text),
    }
}

// Returns the text after a word that ends at this index, without the blank there. If another byte
// is there, returns `None`.
#[inline]
#[tactic(auto, using(crate::proofs::NumberLemmas::words_behind_blank))]
fn after_word(text: &[u8], end: usize) -> Option<&[u8]>
    requires { end ≤ length text.now }
    ensures rest { IfSome result (λ rest. spec.words rest.now ≡ spec.words (drop end text.now)) }
    ensures blank { IfSome result (λ _. end < length text.now →
        spec.is_blank (slice_index text.now end) ≡ true) }
{
    if end == text.len() {
        return Some(&[]);
    }
    if is_blank(text[end]) {
        Some(&text[end + 1..])
    } else {
        None
    }
}

// Splits a text that begins with a word into this word and the rest.
#[tactic(auto, using(crate::proofs::CutLemmas::word_cuts))]
fn cut_word(text: &[u8]) -> (&[u8], &[u8])
    requires word { 0 < length text.now }
    requires trimmed { spec.trim_start text.now ≡ text.now }
    ensures { spec.words text.now ≡ result.0.now ∷ spec.words result.1.now }
{
    match first_blank(text) {
        Some(end) => text.split_at(end),
        None => (text, &[]),
    }
}

// Returns the index of the first blank.
fn first_blank(text: &[u8]) -> Option<usize>
    ensures { result ≡ position spec.is_blank text.now }
{
    text.iter().position(|&byte| is_blank(byte))
}
