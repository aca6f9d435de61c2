//! The parts of error lines.

ghost use Rattle.std.specs.Prelude.{◌≡◌, ◌++◌, OnOk, string_bytes};
ghost use Rattle.std.specs.List.{flat_map};
ghost use Rattle.plan_errors.specs.Parts as spec;

use std::alloc::AllocError;
use std::fmt::Write;

/// The meaning of a number in an error line.
#[derive(Clone, Copy, Debug, PartialEq, Eq)]
pub enum Key {
    Activity,
    Cycle,
    Job,
    Line,
    Machine,
    Predecessor,
    Resource,
    Step,
    Time,
}

impl Key {
    /// Returns its name in error lines and in JSON.
    pub fn word(self) -> &'static str
        ensures { result.now ≡ spec.word_of self }
    {
        match self {
            Key::Activity => "activity",
            Key::Cycle => "cycle",
            Key::Job => "job",
            Key::Line => "line",
            Key::Machine => "machine",
            Key::Predecessor => "predecessor",
            Key::Resource => "resource",
            Key::Step => "step",
            Key::Time => "time",
        }
    }
}

/// A part of an error line behind its code.
#[derive(Debug, Drop)]
pub enum Part {
    /// Words that are the same in all errors of a kind, such as `of the starts`.
    Words(&'static str),
    /// A number behind the name of its key, as in `line 31`.
    Number(Key, u64),
    /// A number without the name of its key, as the predecessor in `starts before 2 ends`.
    Bare(Key, u64),
    /// Numbers behind the name of their key, as in `cycle 1 2 3`.
    Numbers(Key, Vec<u32>),
    /// A name from a file or an argument.
    Text(String),
    /// The ids of the rows of a cycle, with a blank before each.
    Ids(String),
}

// Appends numbers, a blank before each.
fn push_numbers(text: &mut String, numbers: &[u32]) -> Result<(), AllocError>
    ensures { OnOk result
        (string_bytes text.new ≡ string_bytes text.old ++ spec.spaced numbers.now) }
{
    for n in numbers {
        write!(text, " {n}")?;
    }
    Ok(())
}

// Appends the name of a key and its numbers.
fn push_keyed(text: &mut String, key: Key, numbers: &[u32]) -> Result<(), AllocError>
    ensures { OnOk result (string_bytes text.new
        ≡ string_bytes text.old ++ spec.keyed key numbers.now) }
{
    text.push_str(" ")?;
    text.push_str(key.word())?;
    push_numbers(text, numbers)
}

// Appends a part, with the blank before it.
fn push_part(text: &mut String, part: &Part) -> Result<(), AllocError>
    ensures { OnOk result
        (string_bytes text.new ≡ string_bytes text.old ++ spec.part_text part.now) }
{
    match part {
        Part::Words(words) => write!(text, " {words}"),
        Part::Number(key, n) => {
            let word = key.word();
            write!(text, " {word} {n}")
        }
        Part::Bare(_, n) => write!(text, " {n}"),
        Part::Numbers(key, numbers) => push_keyed(text, *key, numbers),
        Part::Text(name) => write!(text, " {name}"),
        Part::Ids(ids) => text.push_str(ids.as_str()),
    }
}

/// Appends parts, with a blank before each.
pub(crate) fn push_parts(text: &mut String, parts: &[Part]) -> Result<(), AllocError>
    ensures { OnOk result
        (string_bytes text.new ≡ string_bytes text.old ++ flat_map spec.part_text parts.now) }
{
    for part in parts {
        push_part(text, part)?;
    }
    Ok(())
}
