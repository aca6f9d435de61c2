//! A text that is short enough and has no zero byte.

ghost use Rattle.std.specs.Prelude.{◌≡◌, ◌≤◌, length, count_by};
ghost use Rattle.std.specs.List.{position};
ghost use Rattle.plan_psplib.specs.Lines.{is_line_feed};
ghost use Rattle.plan_psplib.specs.Tokens.{Reads};
ghost use Rattle.plan_psplib.specs.Plain as spec;

use crate::text::fault::{Fault, FileCode};
use memchr::memchr;

/// The most bytes of a text.
pub const LONGEST_TEXT: usize = 1_048_576;

/// Checks that a text isn't too long and contains no zero byte: the first two checks of each
/// reader.
#[tactic(auto, unfolding(crate::specs::Plain::plain))]
pub fn check_text(text: &[u8]) -> Result<(), Fault>
    ensures { Reads (λ _. tt) result (spec.plain text.now) }
{
    if text.len() > LONGEST_TEXT {
        return Err(Fault::new(FileCode::TooLong, 0));
    }
    match first_zero(text) {
        Some(at) => Err(Fault::new(FileCode::NotText, line_feeds(&text[..at]) + 1)),
        None => Ok(()),
    }
}

fn first_zero(text: &[u8]) -> Option<usize>
    ensures { result ≡ position spec.is_zero text.now }
{
    memchr(0, text)
}

fn line_feeds(text: &[u8]) -> u64
    requires { length text.now ≤ LONGEST_TEXT }
    ensures { result ≡ count_by is_line_feed text.now }
{
    text.iter().filter(|&&byte| byte == b'\n').count() as u64
}
