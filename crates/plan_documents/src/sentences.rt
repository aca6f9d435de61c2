//! The errors of starts that aren't feasible, in sentences with the names in a file.

ghost use Rattle.std.specs.Prelude.{◌≡◌, ◌++◌, IfOk, OnOk, map, option_map, string_bytes};
ghost use Rattle.std.specs.List.{flat_map};
ghost use Rattle.plan_table.specs.Names.{name_of};
ghost use Rattle.plan_documents.specs.Details as spec;

use crate::documents::Subject;
use plan_errors::{CliFault, Code, Key, Part};
use plan_table::{
    NameLine, activity_names, first_name, machine_names, order_names, resource_names,
};
use std::alloc::{AllocError, Global};
use std::fmt::Write;

// Returns the names in a project file of numbers with a key.
fn project_names<'a>(
    alloc: Global,
    file: &'a [u8],
    key: Key,
) -> Result<Vec<NameLine<'a>>, AllocError>
    ensures { IfOk result (λ names.
        map name_of names.items ≡ spec.project_names file.now key) }
{
    match key {
        Key::Activity | Key::Predecessor => activity_names(alloc, file),
        Key::Resource => resource_names(alloc, file),
        Key::Cycle | Key::Job | Key::Line | Key::Machine | Key::Step | Key::Time => {
            Ok(Vec::new(alloc))
        }
    }
}

// Returns the names in an instance of a job shop file of numbers with a key.
fn shop_names<'a>(
    alloc: Global,
    instance: &str,
    file: &'a [u8],
    key: Key,
) -> Result<Vec<NameLine<'a>>, AllocError>
    ensures { IfOk result (λ names.
        map name_of names.items ≡ spec.shop_names instance.now file.now key) }
{
    match key {
        Key::Job => order_names(alloc, file, instance.as_bytes()),
        Key::Machine => machine_names(alloc, file, instance.as_bytes()),
        Key::Activity
        | Key::Cycle
        | Key::Line
        | Key::Predecessor
        | Key::Resource
        | Key::Step
        | Key::Time => Ok(Vec::new(alloc)),
    }
}

/// Returns the names in a file of numbers with a key.
pub(crate) fn names_under<'a>(
    alloc: Global,
    subject: Subject<'_>,
    file: &'a [u8],
    key: Key,
) -> Result<Vec<NameLine<'a>>, AllocError>
    ensures { IfOk result (λ names.
        map name_of names.items ≡ spec.names_under subject.entry file.now key) }
{
    match subject {
        Subject::Project(_) => project_names(alloc, file, key),
        Subject::Shop(instance) => shop_names(alloc, instance, file, key),
    }
}

// Returns the name in a file of a number with a key.
fn name_under<'a>(
    alloc: Global,
    subject: Subject<'_>,
    file: &'a [u8],
    key: Key,
    n: u64,
) -> Result<Option<&'a [u8]>, AllocError>
    ensures { IfOk result (λ name.
        option_map (λ bytes. bytes.now) name ≡ spec.name_under subject.entry file.now key n) }
{
    let names = names_under(alloc, subject, file, key)?;
    Ok(first_name(&names, n))
}

/// Appends a number by its name, or else behind a word.
pub(crate) fn push_called(
    alloc: Global,
    text: &mut String,
    word: &str,
    n: u64,
    name: Option<&[u8]>,
) -> Result<(), AllocError>
    ensures { OnOk result (string_bytes text.new ≡ string_bytes text.old
        ++ spec.name_or word.now n (option_map (λ bytes. bytes.now) name.entry)) }
{
    match name {
        Some(name) => {
            let name = String::from_utf8_lossy(alloc, name)?;
            text.push_str(name.as_str())
        }
        None => write!(text, "{word} {n}"),
    }
}

// Appends a number without the name of its key: an activity of a project, a step of a job shop.
fn push_bare(
    alloc: Global,
    text: &mut String,
    subject: Subject<'_>,
    n: u64,
    name: Option<&[u8]>,
) -> Result<(), AllocError>
    ensures { OnOk result (string_bytes text.new ≡ string_bytes text.old
        ++ spec.bare_called subject.entry n (option_map (λ bytes. bytes.now) name.entry)) }
{
    match subject {
        Subject::Project(_) => push_called(alloc, text, "activity", n, name),
        Subject::Shop(_) => write!(text, "{n}"),
    }
}

// Appends a part of an error with the names in a file.
fn push_words(
    alloc: Global,
    text: &mut String,
    subject: Subject<'_>,
    file: &[u8],
    part: &Part,
) -> Result<(), AllocError>
    ensures { OnOk result (string_bytes text.new
        ≡ string_bytes text.old ++ spec.words_of subject.entry file.now part.now) }
{
    match part {
        Part::Words(words) => text.push_str(words),
        Part::Number(key, n) => {
            let name = name_under(alloc, subject, file, *key, *n)?;
            push_called(alloc, text, key.word(), *n, name)
        }
        Part::Bare(key, n) => {
            let name = name_under(alloc, subject, file, *key, *n)?;
            push_bare(alloc, text, subject, *n, name)
        }
        Part::Text(words) => text.push_str(words.as_str()),
        // The errors of starts have no cycle.
        Part::Numbers(_, _) | Part::Ids(_) => Ok(()),
    }
}

// Appends a part of an error with the names in a file, with a blank before it.
fn push_next(
    alloc: Global,
    text: &mut String,
    subject: Subject<'_>,
    file: &[u8],
    part: &Part,
) -> Result<(), AllocError>
    ensures { OnOk result (string_bytes text.new
        ≡ string_bytes text.old ++ spec.next_words subject.entry file.now part.now) }
{
    text.push_str(" ")?;
    push_words(alloc, text, subject, file, part)
}

// Appends parts of an error with the names in a file, with a blank before each.
fn push_rest(
    alloc: Global,
    text: &mut String,
    subject: Subject<'_>,
    file: &[u8],
    parts: &[Part],
) -> Result<(), AllocError>
    ensures { OnOk result (string_bytes text.new ≡ string_bytes text.old
        ++ flat_map (spec.next_words subject.entry file.now) parts.now) }
{
    for part in parts {
        push_next(alloc, text, subject, file, part)?;
    }
    Ok(())
}

// Returns the sentence of parts of an error with the names in a file.
fn sentence(
    alloc: Global,
    subject: Subject<'_>,
    file: &[u8],
    parts: &[Part],
) -> Result<String, AllocError>
    ensures { IfOk result (λ text.
        string_bytes text ≡ spec.sentence subject.entry file.now parts.now) }
{
    let mut text = String::new(alloc);
    if let [first, rest @ ..] = parts {
        push_words(alloc, &mut text, subject, file, first)?;
        push_rest(alloc, &mut text, subject, file, rest)?;
    }
    Ok(text)
}

// Returns the sentence of parts of an error, if the file has a name for one of their numbers.
fn named_sentence(
    alloc: Global,
    subject: Subject<'_>,
    file: &[u8],
    parts: &[Part],
) -> Result<Option<String>, AllocError>
    ensures { IfOk result (λ made. option_map string_bytes made
        ≡ spec.named_sentence subject.entry file.now parts.now) }
{
    let named = sentence(alloc, subject, file, parts)?;
    let plain = sentence(alloc, subject, b"", parts)?;
    if named.as_str() == plain.as_str() {
        return Ok(None);
    }
    Ok(Some(named))
}

// Returns the sentence of an error, if the file has a name for one of its numbers.
fn fault_sentence(
    alloc: Global,
    subject: Subject<'_>,
    file: &[u8],
    fault: &CliFault,
) -> Result<Option<String>, AllocError>
    ensures { IfOk result (λ made. option_map string_bytes made
        ≡ spec.fault_sentence subject.entry file.now fault.now) }
{
    match fault {
        CliFault::Refused(refusal) => named_sentence(alloc, subject, file, &refusal.parts),
        CliFault::Memory | CliFault::Input(_) | CliFault::Output => Ok(None),
    }
}

/// Returns an error of a schedule. If its starts aren't feasible, its detail is their verdict with
/// the names in the file of the project or the job shop. Without such names there is no detail.
#[tactic(auto, using(crate::proofs::SentenceLemmas::other_names, crate::proofs::SentenceLemmas::verdict_names, crate::proofs::SentenceLemmas::with_other_detail))]
pub fn with_names(alloc: Global, subject: Subject<'_>, file: &[u8], fault: CliFault) -> CliFault
    ensures same { spec.IsDetailed fault result }
    ensures names { spec.NamesVerdict subject.entry file.now result }
{
    if fault.code() != Code::Infeasible {
        return fault;
    }
    match fault_sentence(alloc, subject, file, &fault) {
        Ok(detail) => fault.with_detail(detail),
        Err(_) => CliFault::Memory,
    }
}
