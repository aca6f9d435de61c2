//! Lines of a text of holidays, without comments and blanks.

ghost use Rattle.std.specs.Prelude.{◌≡◌, ◌∷◌, ◌≤◌, ◌<◌, length, IfOk};
ghost use Rattle.std.specs.List.{position};
ghost use Rattle.plan_holidays.specs.HolidayText as spec;
ghost use Rattle.plan_holidays.specs.Rest.{rest_lines, rest_size};

use std::alloc::{AllocError, Global};

/// Returns a text without a byte-order mark at its start.
pub fn without_mark(text: &[u8]) -> &[u8]
    ensures { result.now ≡ spec.without_mark text.now }
{
    if text.starts_with(b"\xef\xbb\xbf") {
        &text[3..]
    } else {
        text
    }
}

// Returns the index of the first line feed.
fn first_line_feed(text: &[u8]) -> Option<usize>
    ensures { result ≡ position spec.is_line_feed text.now }
{
    text.iter().position(|&byte| byte == b'\n')
}

/// Splits a text into its first line and the text after its line feed, if it has one.
#[tactic(auto, using(crate::proofs::LineLemmas::line_cuts))]
pub fn cut_line(text: &[u8]) -> (&[u8], Option<&[u8]>)
    ensures lines { spec.lines text.now ≡ result.0.now ∷ rest_lines result.1 }
    ensures shorter { rest_size result.1 ≤ length text.now }
{
    match first_line_feed(text) {
        Some(end) => (&text[..end], Some(&text[end + 1..])),
        None => (text, None),
    }
}

// Returns the index of the first `#`.
fn first_hash(line: &[u8]) -> Option<usize>
    ensures { result ≡ position spec.is_hash line.now }
{
    line.iter().position(|&byte| byte == b'#')
}

// Returns a line before its comment.
#[tactic(auto, using(crate::proofs::LineLemmas::comment_cuts))]
fn before_comment(line: &[u8]) -> &[u8]
    ensures { result.now ≡ spec.before_comment line.now }
{
    match first_hash(line) {
        Some(end) => &line[..end],
        None => line,
    }
}

// Returns a text without its spaces, tabs and carriage returns.
fn without_blanks(alloc: Global, text: &[u8]) -> Result<Vec<u8>, AllocError>
    ensures { IfOk result (λ shown. shown.items ≡ spec.without_blanks text.now) }
{
    let mut shown = Vec::new(alloc);
    for byte in text {
        if !matches!(*byte, b' ' | b'\t' | b'\r') {
            shown.push(*byte)?;
        }
    }
    Ok(shown)
}

/// Returns a line before its comment, without blanks.
pub fn entry_of(alloc: Global, line: &[u8]) -> Result<Vec<u8>, AllocError>
    ensures { IfOk result (λ entry. entry.items ≡ spec.entry line.now) }
{
    without_blanks(alloc, before_comment(line))
}
