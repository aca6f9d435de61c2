//! Numbers of a stream, or the first fault.

ghost use Rattle.std.specs.Prelude.{◌+◌, IfOk, ◌≤◌};
ghost use Rattle.plan_psplib.specs.Tokens as spec;
ghost use Rattle.plan_psplib.specs.Tokens.{Reads, line_number, number_at, expect_at, within_at, limited_at, duration_at, end_at};

use crate::text::fault::{Fault, FileCode};
use crate::text::numbers::number;
use crate::text::streams::{Layout, StreamWords};
use plan_net::{LONGEST_DURATION, LONGEST_SUM};

/// A number and its line.
#[derive(Clone, Copy, Debug, PartialEq, Eq)]
pub struct LineNumber {
    pub value: u64,
    pub line: u64,
}

/// Reads the next word, which must be a number. The error is `BadNumber` if it isn't one, and
/// `Count` if no word is left.
#[inline(always)]
#[tactic(auto, unfolding(crate::specs::Tokens::number_at))]
pub fn next_number<L: Layout>(words: &mut StreamWords<'_, L>) -> Result<LineNumber, Fault>
    ensures { Reads (λ n. (line_number n, words.new)) result (number_at words.old) }
{
    match words.take_number() {
        Some(value) => Ok(LineNumber {
            value,
            line: words.last(),
        }),
        None => number_of_word(words),
    }
}

// Reads the next word as `next_number` does. A call of its own, so that the usual case is short.
#[inline(never)]
#[tactic(auto, unfolding(crate::specs::Tokens::number_at))]
fn number_of_word<L: Layout>(words: &mut StreamWords<'_, L>) -> Result<LineNumber, Fault>
    ensures { Reads (λ n. (line_number n, words.new)) result (number_at words.old) }
{
    let Some(word) = words.next_word() else {
        return Err(Fault::new(FileCode::Count, words.last()));
    };
    match number(word.text) {
        Some(value) => Ok(LineNumber {
            value,
            line: word.line,
        }),
        None => Err(Fault::new(FileCode::BadNumber, word.line)),
    }
}

/// Reads the next word, which must be the number `wanted`. For another number the error is `code`.
#[tactic(auto, unfolding(crate::specs::Tokens::expect_at))]
pub fn expect<L: Layout>(
    words: &mut StreamWords<'_, L>,
    wanted: u64,
    code: FileCode,
) -> Result<(), Fault>
    ensures { Reads (λ _. words.new) result (expect_at wanted code words.old) }
{
    let n = next_number(words)?;
    if n.value != wanted {
        return Err(Fault::new(code, n.line));
    }
    Ok(())
}

/// Reads the next word, which must be a number up to a limit. The error is `Limit` if it is above.
#[tactic(auto, unfolding(crate::specs::Tokens::within_at))]
pub fn within<L: Layout>(words: &mut StreamWords<'_, L>, limit: u64) -> Result<u64, Fault>
    ensures exact { Reads (λ n. (n, words.new)) result (within_at limit words.old) }
    ensures within { IfOk result (λ n. n ≤ limit) }
{
    let n = next_number(words)?;
    if n.value > limit {
        return Err(Fault::new(FileCode::Limit, n.line));
    }
    Ok(n.value)
}

// A value from `least` to `most`: `Limit` if it is outside.
#[tactic(auto, unfolding(crate::specs::Tokens::limited))]
pub fn limited(value: LineNumber, least: u32, most: u32) -> Result<u32, Fault>
    ensures exact { Reads (λ n. n) result (spec.limited least most (line_number value)) }
    ensures least { IfOk result (λ n. least ≤ n) }
    ensures most { IfOk result (λ n. n ≤ most) }
{
    match u32::try_from(value.value) {
        Ok(n) if least <= n && n <= most => Ok(n),
        _ => Err(Fault::new(FileCode::Limit, value.line)),
    }
}

/// Reads the next word, which must be a number from `least` to `most`, both included. The error is
/// `BadNumber` (F6) if it is no number and `Limit` (F10) if it is outside, in the line of the word.
/// If no word is left, the error is `Count` (F9), in the line of the last word.
#[tactic(auto, unfolding(crate::specs::Tokens::limited_at))]
pub fn next_limited<L: Layout>(
    words: &mut StreamWords<'_, L>,
    least: u32,
    most: u32,
) -> Result<u32, Fault>
    ensures exact { Reads (λ n. (n, words.new)) result (limited_at least most words.old) }
    ensures least { IfOk result (λ n. least ≤ n) }
    ensures most { IfOk result (λ n. n ≤ most) }
{
    let number = next_number(words)?;
    limited(number, least, most)
}

/// Reads the next word, which must be a duration in time units. `total` is the sum of the durations
/// before it. The error is `BadNumber` (F6) if it is no number, and `Limit` (F10) if it is above
/// 10,000 or raises the sum above 1,000,000. The line is that of the word. If no word is left, the
/// error is `Count` (F9), in the line of the last word.
#[tactic(auto, unfolding(crate::specs::Tokens::duration_at))]
pub fn next_duration<L: Layout>(words: &mut StreamWords<'_, L>, total: u64) -> Result<u64, Fault>
    ensures exact { Reads (λ n. (n, words.new)) result (duration_at total words.old) }
    ensures fits { IfOk result (λ n. total + n ≤ LONGEST_SUM) }
{
    let duration = next_number(words)?;
    if duration.value > LONGEST_DURATION || total.saturating_add(duration.value) > LONGEST_SUM {
        return Err(Fault::new(FileCode::Limit, duration.line));
    }
    Ok(duration.value)
}

/// Checks that no token is left; otherwise the error is `Count` at the next token.
#[tactic(auto, unfolding(crate::specs::Tokens::end_at))]
pub fn end<L: Layout>(words: &mut StreamWords<'_, L>) -> Result<(), Fault>
    ensures { Reads (λ _. tt) result (end_at words.old) }
{
    match words.next_word() {
        Some(word) => Err(Fault::new(FileCode::Count, word.line)),
        None => Ok(()),
    }
}
