//! The instances of a text, and the words of each.

ghost use Rattle.std.specs.Prelude.{◌≡◌, Some, None, true, false, ◌||◌, MatchOption};
ghost use Rattle.plan_psplib.specs.Lines.{last_line, lines, words};
ghost use Rattle.plan_orlib.specs.Instances as spec;

use plan_psplib::{Layout, Lines, StreamWords, Words, is_number};

/// The lines of a block after its description, up to the next plus line or instance line.
#[derive(Drop)]
pub struct Block;

impl Layout for Block {
    ghost takes = { λ _. true };

    ghost ends = { λ line. spec.is_plus line || spec.is_instance line };

    fn is_taken(_line: &[u8]) -> bool {
        true
    }

    fn is_end(line: &[u8]) -> bool {
        is_plus(line) || instance_name(line).is_some()
    }
}

/// All lines of a text in the bare form.
#[derive(Drop)]
pub struct Bare;

impl Layout for Bare {
    ghost takes = { λ _. true };

    ghost ends = { λ _. false };

    fn is_taken(_line: &[u8]) -> bool {
        true
    }

    fn is_end(_line: &[u8]) -> bool {
        false
    }
}

// Whether a line begins with a plus sign.
fn is_plus(line: &[u8]) -> bool
    ensures { result ≡ spec.is_plus line.now }
{
    line.first() == Some(&b'+')
}

/// Returns the name on an instance line, or `None` for any other line.
pub fn instance_name(line: &[u8]) -> Option<&[u8]>
    ensures { MatchOption result (spec.instance_name line.now ≡ None)
        (λ name. spec.instance_name line.now ≡ Some name.now) }
{
    let mut words = Words::new(line);
    let first = words.next_word()?;
    let name = words.next_word()?;
    if first == b"instance".as_slice() && words.next_word().is_none() {
        Some(name)
    } else {
        None
    }
}

/// Whether a text is in the bare form: its first line that isn't blank is exactly two numbers.
pub fn is_bare(text: &[u8]) -> bool
    ensures { result ≡ spec.is_bare text.now }
{
    let mut lines = Lines::new(text);
    while let Some(line) = lines.next_line() {
        if !line.text.is_empty() {
            return are_two_numbers(line.text);
        }
    }
    false
}

// Whether a line is exactly two numbers.
fn are_two_numbers(line: &[u8]) -> bool
    ensures { result ≡ spec.are_two_numbers (words line.now) }
{
    let mut words = Words::new(line);
    let (Some(first), Some(second)) = (words.next_word(), words.next_word()) else {
        return false;
    };
    words.next_word().is_none() && is_number(first) && is_number(second)
}

/// The words of a text in the bare form.
#[tactic(auto, using(crate::proofs::BlockLemmas::all_rows))]
pub fn bare_words(text: &[u8]) -> StreamWords<'_, Bare>
    ensures { result ≡ spec.bare_stream text.now }
{
    StreamWords::new(0, Lines::new(text))
}

/// The results of one walk over a text: the number of its last line, and the words of the first
/// block with a name.
#[derive(Drop)]
pub struct Found<'a> {
    pub last: u64,
    pub words: Option<StreamWords<'a, Block>>,
}

impl<'a> Found<'a> {
    #[tactic(auto, using(crate::proofs::BlockLemmas::note_stands))]
    pub fn of(text: &'a [u8], name: &[u8]) -> Found<'a>
        ensures last { result.last ≡ last_line text.now }
        ensures words { result.words ≡ spec.block name.now (lines text.now) }
    {
        let mut lines = Lines::new(text);
        let mut last = 0;
        let mut words = None;
        while let Some(line) = lines.next_line() {
            last = line.number;
            if words.is_none() && is_instance_of(line.text, name) {
                words = Some(block_words(line.number, lines.again()));
            }
        }
        Found { last, words }
    }
}

// Whether a line is the instance line of a name.
fn is_instance_of(line: &[u8], name: &[u8]) -> bool
    ensures { result ≡ spec.is_name name.now (spec.instance_name line.now) }
{
    match instance_name(line) {
        Some(other) => other == name,
        None => false,
    }
}

// Returns the words of the block after an instance line.
#[tactic(auto, using(crate::proofs::BlockLemmas::rows_before_both))]
fn block_words(instance: u64, behind: Lines<'_>) -> StreamWords<'_, Block>
    ensures { result ≡ spec.block_from instance behind.entry }
{
    let mut lines = behind;
    skip_description(&mut lines);
    StreamWords::new(instance, lines)
}

// Skips the lines of a block up to the end of its description. Leaves no line if it has none.
fn skip_description(lines: &mut Lines<'_>)
    ensures { spec.block_lines lines.new ≡ spec.behind_description (spec.block_lines lines.old) }
{
    while let Some(line) = lines.next_line() {
        if instance_name(line.text).is_some() {
            lines.stop();
            return;
        }
        if !is_before_description(line.text) {
            return;
        }
    }
}

// Tests whether a line may precede a description.
fn is_before_description(line: &[u8]) -> bool
    ensures { result ≡ spec.is_before_description line.now }
{
    line.is_empty() || is_plus(line)
}
