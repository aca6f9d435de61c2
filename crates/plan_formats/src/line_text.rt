//! The texts of the lines above and below the rows of a table.

ghost use Rattle.std.specs.Prelude.{◌≡◌, ◌++◌, map, codes, decimal, IfOk, OnOk, string_bytes};
ghost use Rattle.plan_formats.specs.TableLines as spec;

use crate::line::Line;
use std::alloc::{AllocError, Global};

// Returns a word, a blank and a number.
fn worded(alloc: Global, word: &str, n: u64) -> Result<String, AllocError>
    ensures { IfOk result (λ text.
        string_bytes text ≡ word.now ++ codes " " ++ decimal n) }
{
    format!(in alloc; "{word} {n}")
}

// Returns two bounds of the least number.
fn bounds_words(alloc: Global, lower: u64, upper: u64) -> Result<String, AllocError>
    ensures { IfOk result (λ text. string_bytes text
        ≡ codes "between " ++ decimal lower ++ codes " " ++ decimal upper) }
{
    let front = worded(alloc, "between", lower)?;
    worded(alloc, &front, upper)
}

// Returns the name and the makespan of a schedule.
fn makespan_words(alloc: Global, name: &str, makespan: u64) -> Result<String, AllocError>
    ensures { IfOk result (λ text.
        string_bytes text ≡ name.now ++ codes " makespan " ++ decimal makespan) }
{
    format!(in alloc; "{name} makespan {makespan}")
}

// Returns the name, the makespan and the verdict of a schedule.
fn summary_words(
    alloc: Global,
    name: &str,
    makespan: u64,
    verdict: &str,
) -> Result<String, AllocError>
    ensures { IfOk result (λ text. string_bytes text
        ≡ name.now ++ codes " makespan " ++ decimal makespan ++ codes ": " ++ verdict.now) }
{
    let mut text = makespan_words(alloc, name, makespan)?;
    text.push_str(": ")?;
    text.push_str(verdict)?;
    Ok(text)
}

// Appends numbers, each behind a blank.
fn push_numbers(alloc: Global, text: &mut String, numbers: &[u32]) -> Result<(), AllocError>
    ensures { OnOk result (string_bytes text.new
        ≡ string_bytes text.old ++ spec.spaced_numbers numbers.now) }
{
    for n in numbers {
        let word = format!(in alloc; " {n}")?;
        text.push_str(&word)?;
    }
    Ok(())
}

// Returns the text of a chain, if there is one.
fn chain_text(alloc: Global, chain: &Option<Vec<u32>>) -> Result<String, AllocError>
    ensures { IfOk result (λ text.
        string_bytes text ≡ spec.chain_text (spec.chain_of chain.now)) }
{
    let Some(numbers) = chain else {
        return format!(in alloc; "no chain");
    };
    let mut text = format!(in alloc; "chain")?;
    push_numbers(alloc, &mut text, numbers)?;
    Ok(text)
}

// Appends words, each behind a blank.
fn push_words(text: &mut Vec<u8>, words: &[Vec<u8>]) -> Result<(), AllocError>
    ensures { OnOk result (text.new.items
        ≡ text.old.items ++ spec.spaced_words (map (λ word. word.items) words.now)) }
{
    for word in words {
        text.push(b' ')?;
        text.extend_from_slice(word)?;
    }
    Ok(())
}

// Returns the text of a chain by the ids of its activities.
fn id_chain_text(alloc: Global, ids: &[Vec<u8>]) -> Result<Vec<u8>, AllocError>
    ensures { IfOk result (λ text. text.items
        ≡ codes "chain" ++ spec.spaced_words (map (λ id. id.items) ids.now)) }
{
    let mut text = Vec::new(alloc);
    text.extend_from_slice(b"chain")?;
    push_words(&mut text, ids)?;
    Ok(text)
}

// Returns a text and a number of which it is a part.
fn of_count(alloc: Global, front: &str, count: u64) -> Result<String, AllocError>
    ensures { IfOk result (λ text.
        string_bytes text ≡ front.now ++ codes " of " ++ decimal count) }
{
    format!(in alloc; "{front} of {count}")
}

// Returns the numbers of activities that moved and that were compared.
fn moved_words(alloc: Global, moved: u64, count: u64) -> Result<String, AllocError>
    ensures { IfOk result (λ text. string_bytes text
        ≡ codes "moved " ++ decimal moved ++ codes " of " ++ decimal count) }
{
    let front = worded(alloc, "moved", moved)?;
    of_count(alloc, &front, count)
}

// Returns the least number, or its bounds.
fn bound_words(alloc: Global, lower: u64, upper: u64) -> Result<String, AllocError>
    ensures { IfOk result (λ text. string_bytes text ≡ spec.bound_words lower upper) }
{
    if lower < upper {
        bounds_words(alloc, lower, upper)
    } else {
        worded(alloc, "optimal", upper)
    }
}

// Returns the bounds of the least greatest tardiness.
fn tardiness_words(alloc: Global, lower: u64, upper: u64) -> Result<String, AllocError>
    ensures { IfOk result (λ text. string_bytes text
        ≡ codes "tardiness " ++ spec.bound_words lower upper) }
{
    let bounds = bound_words(alloc, lower, upper)?;
    let mut text = format!(in alloc; "tardiness ")?;
    text.push_str(&bounds)?;
    Ok(text)
}

// Returns the numbers of late activities and of all.
fn late_words(alloc: Global, late: u64, count: u64) -> Result<String, AllocError>
    ensures { IfOk result (λ text. string_bytes text
        ≡ codes "late " ++ decimal late ++ codes " of " ++ decimal count) }
{
    let front = worded(alloc, "late", late)?;
    of_count(alloc, &front, count)
}

// Returns the text of a word and ids.
fn ids_text(alloc: Global, word: &str, ids: &[Vec<u8>]) -> Result<Vec<u8>, AllocError>
    ensures { IfOk result (λ text. text.items ≡ spec.none_before (map (λ id. id.items) ids.now)
        ++ word.now ++ spec.spaced_words (map (λ id. id.items) ids.now)) }
{
    let mut text = Vec::new(alloc);
    if ids.is_empty() {
        text.extend_from_slice(b"none ")?;
    }
    text.extend_from_slice(word.as_bytes())?;
    push_words(&mut text, ids)?;
    Ok(text)
}

// Returns the text of a line, without its line feed.
fn line_words(alloc: Global, line: &Line) -> Result<Vec<u8>, AllocError>
    ensures { IfOk result (λ text. text.items ≡ spec.line_words (spec.line_of line.now)) }
{
    match line {
        Line::Optimal(n) => Ok(worded(alloc, "optimal", *n)?.into_bytes()),
        Line::Between(lower, upper) => Ok(bounds_words(alloc, *lower, *upper)?.into_bytes()),
        Line::Budget(n) => Ok(worded(alloc, "budget", *n)?.into_bytes()),
        Line::Duration(n) => Ok(worded(alloc, "T", *n)?.into_bytes()),
        Line::Makespan(n) => Ok(worded(alloc, "makespan", *n)?.into_bytes()),
        Line::Chain(chain) => Ok(chain_text(alloc, chain)?.into_bytes()),
        Line::IdChain(_, ids) => id_chain_text(alloc, ids),
        Line::Moved(moved, count) => Ok(moved_words(alloc, *moved, *count)?.into_bytes()),
        Line::Tardiness(lower, upper) => {
            Ok(tardiness_words(alloc, *lower, *upper)?.into_bytes())
        }
        Line::Late(late, count) => Ok(late_words(alloc, *late, *count)?.into_bytes()),
        Line::Ids(word, ids) => ids_text(alloc, word, ids),
        Line::Summary {
            name,
            makespan,
            verdict,
        } => Ok(summary_words(alloc, name, *makespan, verdict)?.into_bytes()),
    }
}

/// Appends the texts of lines.
pub(crate) fn push_lines(
    alloc: Global,
    text: &mut Vec<u8>,
    lines: &[Line],
) -> Result<(), AllocError>
    ensures { OnOk result (text.new.items
        ≡ text.old.items ++ spec.lines_text (map spec.line_of lines.now)) }
{
    for line in lines {
        let words = line_words(alloc, line)?;
        text.extend_from_slice(&words)?;
        text.push(b'\n')?;
    }
    Ok(())
}
