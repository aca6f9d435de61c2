//! A text of starts as bare numbers: one for each activity, in order.

ghost use Rattle.std.specs.Prelude.{◌≡◌, [], true, false};
ghost use Rattle.plan_psplib.specs.Tokens.{Gives};
ghost use Rattle.plan_report.specs.StartNumbers as spec;

use plan_psplib::{Layout, Lines, ReadError, StreamWords, end, within};
use std::alloc::Global;

/// The latest start, in whole time units.
pub(crate) const LATEST_START: u64 = 10_000_000;

/// The layout in which every line of a text belongs to the section.
#[derive(Drop)]
pub(crate) struct AllLines;

impl Layout for AllLines {
    ghost takes = { λ _. true };

    ghost ends = { λ _. false };

    fn is_taken(_line: &[u8]) -> bool {
        true
    }

    fn is_end(_line: &[u8]) -> bool {
        false
    }
}

/// Returns all tokens of a text.
#[tactic(auto, using(crate::proofs::NumberLemmas::all_rows))]
pub(crate) fn all_tokens(text: &[u8]) -> StreamWords<'_, AllLines>
    ensures { result ≡ spec.all_tokens text.now }
{
    StreamWords::new(0, Lines::new(text))
}

// Reads the next `count` starts.
fn next_starts(
    alloc: Global,
    tokens: &mut StreamWords<'_, AllLines>,
    count: usize,
) -> Result<Vec<u64>, ReadError>
    ensures { Gives (λ v. (v.items, tokens.new)) result (spec.starts_at count [] tokens.old) }
{
    let mut starts = Vec::new(alloc);
    for _ in 0..count {
        let start = within(tokens, LATEST_START)?;
        starts.push(start)?;
    }
    Ok(starts)
}

/// Returns the `count` numbers in a text, or the first check that fails.
#[tactic(auto, unfolding(crate::specs::StartNumbers::numbers_in))]
pub(crate) fn read_numbers(alloc: Global, count: usize, text: &[u8]) -> Result<Vec<u64>, ReadError>
    ensures { Gives (λ v. v.items) result (spec.numbers_in count text.now) }
{
    let mut tokens = all_tokens(text);
    let starts = next_starts(alloc, &mut tokens, count)?;
    end(&mut tokens)?;
    Ok(starts)
}
