//! Texts and numbers, aligned right in columns.

ghost use Rattle.std.specs.Prelude.{◌≡◌, ◌++◌, OnOk, replicate, string_bytes};
ghost use Rattle.plan_gantt.specs.Column.{column, number_column, number_columns, number_row};

use std::alloc::AllocError;
use std::fmt::Write;

// Appends the number of a line, aligned right in 4 characters.
#[tactic(auto, using(crate::proofs::ColumnLemmas::styled_first))]
pub fn push_first(text: &mut String, n: u32) -> Result<(), AllocError>
    ensures { OnOk result (string_bytes text.new ≡ string_bytes text.old ++ number_column 4 n) }
{
    write!(text, "{n:>4}")
}

// Appends a number, aligned right in 8 characters.
#[tactic(auto, using(crate::proofs::ColumnLemmas::styled_further))]
pub fn push_number(text: &mut String, n: u64) -> Result<(), AllocError>
    ensures { OnOk result (string_bytes text.new ≡ string_bytes text.old ++ number_column 8 n) }
{
    write!(text, "{n:>8}")
}

// Appends numbers, each aligned right in 8 characters.
pub fn push_numbers(text: &mut String, numbers: &[u64]) -> Result<(), AllocError>
    ensures { OnOk result
        (string_bytes text.new ≡ string_bytes text.old ++ number_columns numbers.now) }
{
    for &n in numbers {
        push_number(text, n)?;
    }
    Ok(())
}

// Appends a line of numbers: the first aligned right in 4 characters, the others in 8.
pub fn push_row(text: &mut String, first: u32, numbers: &[u64]) -> Result<(), AllocError>
    ensures { OnOk result
        (string_bytes text.new ≡ string_bytes text.old ++ number_row first numbers.now) }
{
    push_first(text, first)?;
    push_numbers(text, numbers)?;
    text.push_str("\n")
}

// Appends `count` spaces.
fn push_spaces(text: &mut String, count: usize) -> Result<(), AllocError>
    ensures { OnOk result (string_bytes text.new ≡ string_bytes text.old ++ replicate count 32) }
{
    for _done in 0..count {
        text.push_str(" ")?;
    }
    Ok(())
}

// Appends a text, aligned right in `places` characters. A longer text isn't cut.
pub fn push_right(text: &mut String, places: usize, word: &str) -> Result<(), AllocError>
    ensures { OnOk result
        (string_bytes text.new ≡ string_bytes text.old ++ column places word.now) }
{
    push_spaces(text, places.saturating_sub(word.len()))?;
    text.push_str(word)
}
