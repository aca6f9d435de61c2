//! The sections of an `.sm` text.

ghost use Rattle.std.specs.Prelude.{◌≡◌, drop, filter};
ghost use Rattle.std.specs.List.{list_all};
ghost use Rattle.plan_psplib.specs.Lines.{last_line};
ghost use Rattle.plan_psplib.specs.Streams as streams;
ghost use Rattle.plan_psplib.specs.Sections as spec;
ghost use Rattle.plan_psplib.specs.Noted.{noted};

use crate::text::{Layout, Line, Lines, StreamWords, next_row};

/// The lines of a section: those that are kept, up to the next title line.
#[derive(Drop)]
pub struct Section;

impl Layout for Section {
    ghost takes = { spec.is_kept };

    ghost ends = { spec.is_title };

    fn is_taken(line: &[u8]) -> bool {
        is_kept(line)
    }

    fn is_end(line: &[u8]) -> bool {
        is_title(line)
    }
}

/// Tests whether a line is kept: it contains a byte other than stars and hyphens.
pub fn is_kept(line: &[u8]) -> bool
    ensures { result ≡ spec.is_kept line.now }
{
    !is_rule(line)
}

// Tests whether a line contains only stars and hyphens.
fn is_rule(line: &[u8]) -> bool
    ensures { result ≡ list_all spec.is_rule_byte line.now }
{
    line.iter().all(|&byte| byte == b'*' || byte == b'-')
}

/// Tests whether a line is a title line.
pub fn is_title(line: &[u8]) -> bool
    ensures { result ≡ spec.is_title line.now }
{
    begins_with(line, b"PROJECT INFORMATION")
        || begins_with(line, b"PRECEDENCE RELATIONS")
        || begins_with(line, b"REQUESTS/DURATIONS")
        || begins_with(line, b"RESOURCEAVAILABILITIES")
}

/// Tests whether a line begins with these bytes. Compares the first byte before the call that
/// compares all, since most lines differ there.
#[inline]
pub fn begins_with(line: &[u8], front: &[u8]) -> bool
    ensures { result ≡ spec.begins_with line.now front.now }
{
    match (line, front) {
        ([first, ..], [wanted, ..]) if *first != *wanted => false,
        _ => line.starts_with(front),
    }
}

/// The results of one walk over a text: the number of its last line, and the three sections that
/// are read.
#[derive(Drop)]
pub struct Outline<'a> {
    pub last: u64,
    pub precedence: Option<StreamWords<'a, Section>>,
    pub requests: Option<StreamWords<'a, Section>>,
    pub availabilities: Option<StreamWords<'a, Section>>,
}

impl<'a> Outline<'a> {
    #[tactic(auto, using(crate::proofs::NoteLemmas::notes))]
    pub fn of(text: &'a [u8]) -> Outline<'a>
        ensures last { result.last ≡ last_line text.now }
        ensures precedence { result.precedence ≡ spec.section spec.precedence_title
            (spec.kept_lines text.now) }
        ensures requests { result.requests ≡ spec.section spec.requests_title
            (spec.kept_lines text.now) }
        ensures availabilities { result.availabilities ≡ spec.section spec.availabilities_title
            (spec.kept_lines text.now) }
    {
        let mut lines = Lines::new(text);
        let mut last = 0;
        let mut precedence = None;
        let mut requests = None;
        let mut availabilities = None;
        while let Some(line) = lines.next_line() {
            last = line.number;
            if is_kept(line.text) {
                note(&mut precedence, b"PRECEDENCE RELATIONS", line, &lines);
                note(&mut requests, b"REQUESTS/DURATIONS", line, &lines);
                note(&mut availabilities, b"RESOURCEAVAILABILITIES", line, &lines);
            }
        }
        Outline {
            last,
            precedence,
            requests,
            availabilities,
        }
    }
}

// Stores the section after a line if the line is the first one that begins with its title.
fn note<'a>(
    section: &mut Option<StreamWords<'a, Section>>,
    title: &[u8],
    line: Line<'a>,
    behind: &Lines<'a>,
)
    ensures { section.new ≡ noted (spec.begins_with line.entry.text.now title.now) section.old
        (spec.section_from line.entry.number (filter (λ line. spec.is_kept line.text) behind.now)) }
{
    if section.is_none() && begins_with(line.text, title) {
        *section = Some(section_words(line.number, behind.again()));
    }
}

// Returns the words of the section after a title line. Skips the line of column heads.
fn section_words(title: u64, lines: Lines<'_>) -> StreamWords<'_, Section>
    ensures { result ≡ record {
      last = title;
      words = streams.words_of
          (drop 1 (streams.rows spec.is_kept spec.is_title lines.entry));
    } }
{
    let mut rows = lines;
    let _column_heads = next_row::<Section>(&mut rows);
    StreamWords::new(title, rows)
}
