//! Lines of a text as one stream of words.

ghost use Rattle.std.specs.Prelude.{◌≡◌, Bool, List, ℕ, [], ◌∷◌, ◌++◌, Ok, MatchOption};
ghost use Rattle.plan_psplib.specs.Streams as spec;
ghost use Rattle.plan_psplib.specs.Tokens.{number_at};

use crate::text::lines::{Line, Lines};
use crate::text::words::Words;
use std::marker::{Model, PhantomData};

/// Selects the lines of a stream.
pub trait Layout {
    /// The lines that count, as a test on their bytes.
    ghost takes: { List ℕ → Bool };

    /// The lines that count and end the stream before them, as a test on their bytes.
    ghost ends: { List ℕ → Bool };

    /// Whether a line counts.
    fn is_taken(line: &[u8]) -> bool
        ensures { result ≡ takes line.now };

    /// Whether the stream ends before a line that counts.
    fn is_end(line: &[u8]) -> bool
        ensures { result ≡ ends line.now };
}

/// A word and the number of its line.
#[derive(Clone, Copy)]
pub struct LineWord<'a> {
    pub line: u64,
    pub text: &'a [u8],
}

/// The remaining words of a stream, in order, with the line of the word that was read last.
#[derive(Drop)]
pub struct StreamWords<'a, L: Layout> {
    last: u64,
    line: u64,
    words: Words<'a>,
    lines: Lines<'a>,
    layout: PhantomData<L>,
}

impl<'a, L: Layout> Model for StreamWords<'a, L> {
    ghost use Rattle.std.specs.Prelude.{◌++◌};
    ghost use Rattle.plan_psplib.specs.Streams.{Stream, words_at, words_of, rows};

    ghost Value = { Stream };

    ghost view = { λ stream. record {
      last = stream.last;
      words = words_at stream.line stream.words ++ words_of
          (rows L.takes L.ends stream.lines);
    } };
}

impl<'a, L: Layout> StreamWords<'a, L> {
    /// Returns all words of the lines, which follow the line with the number `before`.
    pub fn new(before: u64, lines: Lines<'a>) -> StreamWords<'a, L>
        ensures { result ≡ record {
          last = before;
          words = spec.words_of
              (spec.rows L.takes L.ends lines.entry);
        } }
    {
        StreamWords {
            last: before,
            line: before,
            words: Words::new(&[]),
            lines,
            layout: PhantomData,
        }
    }

    /// The line of the word that was read last, or of the title before the first word.
    pub fn last(&self) -> u64
        ensures { result ≡ self.now.last }
    {
        self.last
    }

    /// Returns the next word, if there is one.
    pub fn next_word(&mut self) -> Option<LineWord<'a>>
        ensures { MatchOption result ((self.old.words ≡ []) × (self.new ≡ self.old))
            (λ word.
            (self.old.words ≡ record { line = word.line; text = word.text.now } ∷ self.new.words)
            × (self.new.last ≡ word.line)) }
    {
        loop {
            if let Some(text) = self.words.next_word() {
                self.last = self.line;
                return Some(LineWord {
                    line: self.line,
                    text,
                });
            }
            let Some(line) = next_row::<L>(&mut self.lines) else {
                return None;
            };
            self.line = line.number;
            self.words = Words::new(line.text);
        }
    }

    /// Returns the next word as a number, and sets `last` to its line. If no word is left or the
    /// word isn't a number, returns `None` and takes no word.
    #[inline]
    pub fn take_number(&mut self) -> Option<u64>
        ensures { MatchOption result (self.new ≡ self.old)
            (λ n. number_at self.old ≡ Ok (record { value = n; line = self.new.last }, self.new)) }
    {
        open_row::<L>(&mut self.line, &mut self.words, &mut self.lines);
        let value = self.words.next_number()?;
        self.last = self.line;
        Some(value)
    }
}

// Goes to the next line that counts if the current line is at its end.
#[inline]
fn open_row<'a, L: Layout>(line: &mut u64, words: &mut Words<'a>, lines: &mut Lines<'a>)
    ensures { spec.words_at line.new words.new ++ spec.words_of (spec.rows L.takes L.ends lines.new)
        ≡ spec.words_at line.old words.old ++ spec.words_of (spec.rows L.takes L.ends lines.old) }
{
    if words.is_at_end() {
        open_next::<L>(line, words, lines);
    }
}

// Goes to the next line that counts. A call of its own, so that the usual case is short.
#[inline(never)]
fn open_next<'a, L: Layout>(line: &mut u64, words: &mut Words<'a>, lines: &mut Lines<'a>)
    requires { words.old ≡ [] }
    ensures { spec.words_at line.new words.new ++ spec.words_of (spec.rows L.takes L.ends lines.new)
        ≡ spec.words_of (spec.rows L.takes L.ends lines.old) }
{
    if let Some(row) = next_row::<L>(lines) {
        *line = row.number;
        *words = Words::new(row.text);
    }
}

/// Returns the next line that counts, or `None` if there is none or an end comes first.
pub fn next_row<'a, L: Layout>(lines: &mut Lines<'a>) -> Option<Line<'a>>
    ensures { MatchOption result
        ((spec.rows L.takes L.ends lines.old ≡ []) × (spec.rows L.takes L.ends lines.new ≡ []))
        (λ line. spec.rows L.takes L.ends lines.old
        ≡ record {
          number = line.number;
          text = line.text.now;
        } ∷ spec.rows L.takes L.ends lines.new) }
{
    while let Some(line) = lines.next_line() {
        if L::is_taken(line.text) {
            if L::is_end(line.text) {
                lines.stop();
                return None;
            }
            return Some(line);
        }
    }
    None
}
