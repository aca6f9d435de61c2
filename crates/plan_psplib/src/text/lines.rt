//! Lines of a text.

ghost use Rattle.std.specs.Prelude.{◌≡◌, ◌<◌, [], ◌∷◌, length, MatchOption};
ghost use Rattle.std.specs.List.{position};
ghost use Rattle.plan_psplib.specs.Lines as spec;

use memchr::memchr;
use std::marker::Model;

/// A line of a text: its number, counted from 1, and its bytes without the blanks at its ends.
#[derive(Clone, Copy)]
pub struct Line<'a> {
    pub number: u64,
    pub text: &'a [u8],
}

/// The remaining lines of a text, in order.
#[derive(Drop)]
pub struct Lines<'a> {
    number: u64,
    rest: &'a [u8],
}

impl<'a> Model for Lines<'a> {
    ghost use Rattle.std.specs.Prelude.{List, ◌+◌, ◌<◌, ◌^◌, length};
    ghost use Rattle.plan_psplib.specs.Lines.{NumberedLine, numbered_from, raw_lines};

    ghost Value = { List NumberedLine };

    ghost view = { λ lines. numbered_from lines.number (raw_lines lines.rest.now) };

    ghost invariant = { λ lines. lines.number + length lines.rest.now < 2 ^ 64 };
}

impl<'a> Lines<'a> {
    /// All lines of a text.
    pub fn new(text: &'a [u8]) -> Lines<'a>
        ensures { result ≡ spec.lines text.now }
    {
        Lines {
            number: 1,
            rest: text,
        }
    }

    /// Returns a copy of the remaining lines, for a second walk from here.
    pub fn again(&self) -> Lines<'a>
        ensures { result ≡ self.now }
    {
        Lines {
            number: self.number,
            rest: self.rest,
        }
    }

    /// Drops all remaining lines.
    pub fn stop(&mut self)
        ensures { self.new ≡ [] }
    {
        self.rest = &[];
    }

    /// Returns the next line, if there is one.
    #[inline]
    pub fn next_line(&mut self) -> Option<Line<'a>>
        ensures { MatchOption result ((self.old ≡ []) × (self.new ≡ []))
            (λ line. self.old ≡ record { number = line.number; text = line.text.now } ∷ self.new) }
    {
        if self.rest.is_empty() {
            return None;
        }
        let (text, rest) = cut_line(self.rest);
        let line = Line {
            number: self.number,
            text: trim(text),
        };
        self.number += 1;
        self.rest = rest;
        Some(line)
    }
}

// Splits a nonempty text into its first line, untrimmed, and the text after its line feed.
#[tactic(auto, using(crate::proofs::CutLemmas::line_cuts))]
fn cut_line(text: &[u8]) -> (&[u8], &[u8])
    requires { 0 < length text.now }
    ensures line { spec.raw_lines text.now ≡ result.0.now ∷ spec.raw_lines result.1.now }
    ensures shorter { length result.1.now < length text.now }
{
    match first_line_feed(text) {
        Some(end) => (&text[..end], &text[end + 1..]),
        None => (text, &[]),
    }
}

// Returns the index of the first line feed.
fn first_line_feed(text: &[u8]) -> Option<usize>
    ensures { result ≡ position spec.is_line_feed text.now }
{
    memchr(b'\n', text)
}

/// Tests whether a byte separates words: a tab, a vertical tab, a form feed, a carriage return, the
/// end mark 26 or a space.
pub fn is_blank(byte: u8) -> bool
    ensures { result ≡ spec.is_blank byte }
{
    byte <= b' ' && matches!(byte, b'\t' | 0x0b | 0x0c | b'\r' | 0x1a | b' ')
}

/// A text without the blanks at its ends.
pub fn trim(text: &[u8]) -> &[u8]
    ensures { result.now ≡ spec.trim text.now }
{
    trim_end(trim_start(after_spaces(text)))
}

// Drops spaces at the front of a text, eight at a time, while there are so many.
fn after_spaces(text: &[u8]) -> &[u8]
    ensures { spec.trim_start result.now ≡ spec.trim_start text.now }
{
    let mut left = text;
    while let [b' ', b' ', b' ', b' ', b' ', b' ', b' ', b' ', rest @ ..] = left {
        left = rest;
    }
    left
}

/// A text without the blanks at its front.
#[inline(never)]
pub fn trim_start(text: &[u8]) -> &[u8]
    ensures { result.now ≡ spec.trim_start text.now }
{
    let mut left = text;
    while let [first, rest @ ..] = left {
        if !is_blank(*first) {
            break;
        }
        left = rest;
    }
    left
}

/// A text without the blanks at its end.
#[tactic(auto, using(crate::proofs::BlankLemmas::trimmed_ends))]
pub fn trim_end(text: &[u8]) -> &[u8]
    ensures { result.now ≡ spec.trim_end text.now }
{
    let mut left = text;
    while let [rest @ .., last] = left {
        if !is_blank(*last) {
            break;
        }
        left = rest;
    }
    left
}
