//! The head of an `.sm` text: the numbers of jobs and resources.

ghost use Rattle.std.specs.Prelude.{◌≡◌, ◌≤◌, Some, None, IfOk, MatchOption};
ghost use Rattle.std.specs.Option.{option_map};
ghost use Rattle.std.specs.List.{position};
ghost use Rattle.plan_psplib.specs.Tokens.{Reads, line_number};
ghost use Rattle.plan_psplib.specs.Sections as sections;
ghost use Rattle.plan_psplib.specs.Head as spec;
ghost use Rattle.plan_psplib.specs.Noted.{noted};

use crate::sm::sections::{Section, begins_with};
use crate::text::{Fault, FileCode, Line, LineNumber, Lines, Words, limited, next_row, number};
use plan_net::{FEWEST_ACTIVITIES, MOST_ACTIVITIES};

/// The numbers of jobs and of renewable resources.
#[derive(Clone, Copy)]
pub struct Sizes {
    pub jobs: u32,
    pub resources: u32,
}

// The most renewable resources of a project.
const MOST_RESOURCES: u32 = 16;

// A value for each key of the head.
#[derive(Clone, Copy)]
struct Keys<T> {
    projects: T,
    jobs: T,
    renewable: T,
    nonrenewable: T,
    doubly_constrained: T,
}

/// Returns the sizes in the head. A missing key is reported at `last`, the last line of the text.
#[tactic(auto, unfolding(crate::specs::Head::sizes))]
pub fn head_sizes(text: &[u8], last: u64) -> Result<Sizes, Fault>
    ensures exact { Reads spec.sizes_of result (spec.sizes last (sections.head_of text.now)) }
    ensures jobs { IfOk result (λ s. s.jobs ≤ MOST_ACTIVITIES) }
    ensures resources { IfOk result (λ s. s.resources ≤ MOST_RESOURCES) }
{
    let lines = found_lines(key_lines(text), last)?;
    sizes_in(values(lines)?)
}

// Returns for each key the first line of the head that begins with it.
#[tactic(auto, using(crate::proofs::NoteLemmas::notes))]
fn key_lines(text: &[u8]) -> Keys<Option<Line<'_>>>
    ensures { spec.keys_by (option_map spec.numbered_line) result ≡ spec.key_lines
        (sections.head_of text.now) }
{
    let mut lines = Lines::new(text);
    let mut projects = None;
    let mut jobs = None;
    let mut renewable = None;
    let mut nonrenewable = None;
    let mut doubly_constrained = None;
    while let Some(line) = next_row::<Section>(&mut lines) {
        note(&mut projects, b"projects", line);
        note(&mut jobs, b"jobs", line);
        note(&mut renewable, b"- renewable", line);
        note(&mut nonrenewable, b"- nonrenewable", line);
        note(&mut doubly_constrained, b"- doubly constrained", line);
    }
    Keys {
        projects,
        jobs,
        renewable,
        nonrenewable,
        doubly_constrained,
    }
}

// Stores a line if it is the first one that begins with the key.
fn note<'a>(first: &mut Option<Line<'a>>, key: &[u8], line: Line<'a>)
    ensures { option_map spec.numbered_line first.new
        ≡ noted (sections.begins_with line.entry.text.now key.now)
        (option_map spec.numbered_line first.old) (spec.numbered_line line.entry) }
{
    if first.is_none() && begins_with(line.text, key) {
        *first = Some(line);
    }
}

// Returns the lines of the keys, all of which must be there.
#[tactic(auto, unfolding(crate::specs::Head::found_lines))]
fn found_lines(lines: Keys<Option<Line<'_>>>, last: u64) -> Result<Keys<Line<'_>>, Fault>
    ensures { Reads (spec.keys_by spec.numbered_line) result
        (spec.found_lines last (spec.keys_by (option_map spec.numbered_line) lines.entry)) }
{
    Ok(Keys {
        projects: found_line(lines.projects, last)?,
        jobs: found_line(lines.jobs, last)?,
        renewable: found_line(lines.renewable, last)?,
        nonrenewable: found_line(lines.nonrenewable, last)?,
        doubly_constrained: found_line(lines.doubly_constrained, last)?,
    })
}

fn found_line(line: Option<Line<'_>>, last: u64) -> Result<Line<'_>, Fault>
    ensures { Reads spec.numbered_line result (spec.found_line last
        (option_map spec.numbered_line line.entry)) }
{
    line.ok_or(Fault::new(FileCode::MissingHead, last))
}

// The values of the keys.
#[tactic(auto, unfolding(crate::specs::Head::values))]
fn values(lines: Keys<Line<'_>>) -> Result<Keys<LineNumber>, Fault>
    ensures { Reads (spec.keys_by line_number) result
        (spec.values (spec.keys_by spec.numbered_line lines.entry)) }
{
    Ok(Keys {
        projects: key_value(lines.projects)?,
        jobs: key_value(lines.jobs)?,
        renewable: key_value(lines.renewable)?,
        nonrenewable: key_value(lines.nonrenewable)?,
        doubly_constrained: key_value(lines.doubly_constrained)?,
    })
}

// The value of a key, which must be a number.
fn key_value(line: Line<'_>) -> Result<LineNumber, Fault>
    ensures { Reads line_number result (spec.key_value (spec.numbered_line line.entry)) }
{
    let value = value_word(line.text).and_then(number);
    match value {
        Some(value) => Ok(LineNumber {
            value,
            line: line.number,
        }),
        None => Err(Fault::new(FileCode::BadNumber, line.number)),
    }
}

// The first word after the first colon.
fn value_word(text: &[u8]) -> Option<&[u8]>
    ensures { MatchOption result (sections.value_word text.now ≡ None)
        (λ word. sections.value_word text.now ≡ Some word.now) }
{
    match first_colon(text) {
        Some(at) => Words::new(&text[at + 1..]).next_word(),
        None => None,
    }
}

fn first_colon(text: &[u8]) -> Option<usize>
    ensures { result ≡ position sections.is_colon text.now }
{
    text.iter().position(|&byte| byte == b':')
}

// Returns the sizes from the values, which must be those of one project with renewable resources
// only, within the limits.
#[tactic(auto, unfolding(crate::specs::Head::sizes_in))]
fn sizes_in(values: Keys<LineNumber>) -> Result<Sizes, Fault>
    ensures exact { Reads spec.sizes_of result (spec.sizes_in (spec.keys_by line_number values)) }
    ensures jobs { IfOk result (λ s. s.jobs ≤ MOST_ACTIVITIES) }
    ensures resources { IfOk result (λ s. s.resources ≤ MOST_RESOURCES) }
{
    supported(values.projects, 1)?;
    supported(values.nonrenewable, 0)?;
    supported(values.doubly_constrained, 0)?;
    let jobs = limited(
        values.jobs,
        FEWEST_ACTIVITIES as u32,
        MOST_ACTIVITIES as u32,
    )?;
    let resources = limited(values.renewable, 1, MOST_RESOURCES)?;
    Ok(Sizes { jobs, resources })
}

// Checks that a key has the only supported value.
fn supported(value: LineNumber, only: u64) -> Result<(), Fault>
    ensures { Reads (λ _. tt) result (spec.supported only (line_number value)) }
{
    if value.value == only {
        Ok(())
    } else {
        Err(Fault::new(FileCode::Unsupported, value.line))
    }
}
