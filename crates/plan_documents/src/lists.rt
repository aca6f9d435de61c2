//! Lists, which commands read as the files that `plan import` makes of them.

ghost use Rattle.std.specs.Prelude.{◌≡◌, [], IfOk, IfErr, string_bytes};
ghost use Rattle.plan_errors.specs.Output.{Refuses};
ghost use Rattle.plan_documents.specs.Capacities.{TellsUnknown};
ghost use Rattle.plan_documents.specs.Lists as spec;
ghost use Rattle.plan_documents.specs.Lines.{IfText};

use crate::capacities::{Capacity, replaced};
use crate::documents::Subject;
use crate::imports::{import_text, shop_import_text, sound_import_text};
use crate::spreadsheets::plain_of;
use plan_errors::CliFault;
use plan_table::{ListKind, list_kind};
use std::alloc::Global;

/// The project or the job shop that a command reads, in its file or in the file that `plan import`
/// makes of a list.
#[derive(Drop)]
pub struct Reading<'a> {
    /// The kind of the list, if the file is one.
    pub kind: Option<ListKind>,
    /// The project or the job shop.
    pub subject: Subject<'a>,
    /// The project file or the job shop file of a list.
    pub made: Option<String>,
}

impl Reading<'_> {
    /// Returns the text of the project file or the job shop file.
    pub fn text<'b>(&'b self, file: &'b [u8]) -> &'b [u8]
        ensures { result.now ≡ spec.text_of self.now.made file.now }
    {
        match &self.made {
            Some(made) => made.as_bytes(),
            None => file,
        }
    }
}

// Returns the project file of a list of activities. With given capacities, its needs may be above
// its own.
fn project_text(alloc: Global, given: &[Capacity<'_>], list: &[u8]) -> Result<String, CliFault>
    ensures made { IfText result (spec.IsMadeOf ListKind.Activities list.now) }
    ensures refused { IfErr result (Refuses (spec.RefusesActivities given.now list.now)) }
{
    match given {
        [] => import_text(alloc, &[], list),
        [_, ..] => sound_import_text(alloc, list),
    }
}

// Returns the project file of a list of activities for a subject.
fn activities_text(alloc: Global, subject: Subject<'_>, list: &[u8]) -> Result<String, CliFault>
    ensures made { IfText result (spec.IsMadeOf ListKind.Activities list.now) }
    ensures refused { IfErr result (Refuses
        (spec.RefusesList ListKind.Activities subject.entry list.now)) }
{
    match subject {
        Subject::Project(given) => project_text(alloc, given, list),
        Subject::Shop(_) => import_text(alloc, &[], list),
    }
}

// Returns the file that `plan import` makes of a list.
fn made_text(
    alloc: Global,
    kind: ListKind,
    subject: Subject<'_>,
    list: &[u8],
) -> Result<String, CliFault>
    ensures made { IfText result (spec.IsMadeOf kind list.now) }
    ensures refused { IfErr result (Refuses (spec.RefusesList kind subject.entry list.now)) }
{
    match kind {
        ListKind::Activities => activities_text(alloc, subject, list),
        ListKind::Orders => shop_import_text(alloc, list),
    }
}

// Returns the instance of a list of orders.
fn list_instance<'a>() -> Subject<'a>
    ensures { spec.IsListInstance result }
{
    Subject::Shop("shop")
}

// Returns the instance with a name in a list of orders, whose one instance is also named `-`.
fn instance_named(name: &str) -> Subject<'_>
    ensures { spec.IsNamedInstance name.entry result }
{
    if name == "-" {
        list_instance()
    } else {
        Subject::Shop(name)
    }
}

// Returns the instance of a list of orders, unless capacities are given: a job shop has no
// resources.
fn open_instance<'a>(alloc: Global, given: &'a [Capacity<'a>]) -> Result<Subject<'a>, CliFault>
    ensures made { IfOk result (spec.IsOpenInstance given.now) }
    ensures refused { IfErr result (Refuses (TellsUnknown [] given.now [])) }
{
    match replaced(alloc, &[], given, &[]) {
        Ok(_) => Ok(list_instance()),
        Err(fault) => Err(fault),
    }
}

// Returns the subject of a command on a list of orders.
fn subject_on_orders<'a>(alloc: Global, subject: Subject<'a>) -> Result<Subject<'a>, CliFault>
    ensures made { IfOk result (spec.IsSubjectOn ListKind.Orders subject.entry) }
    ensures refused { IfErr result (Refuses
        (spec.RefusesSubjectOn ListKind.Orders subject.entry)) }
{
    match subject {
        Subject::Project(given) => open_instance(alloc, given),
        Subject::Shop(name) => Ok(instance_named(name)),
    }
}

// Returns the subject of a command on a list.
fn subject_on<'a>(
    alloc: Global,
    kind: ListKind,
    subject: Subject<'a>,
) -> Result<Subject<'a>, CliFault>
    ensures made { IfOk result (spec.IsSubjectOn kind subject.entry) }
    ensures refused { IfErr result (Refuses (spec.RefusesSubjectOn kind subject.entry)) }
{
    match kind {
        ListKind::Activities => Ok(subject),
        ListKind::Orders => subject_on_orders(alloc, subject),
    }
}

// Returns the subject of a command on a list of a kind, and the file that `plan import` makes of
// the list.
#[tactic(auto, using(crate::proofs::ListLemmas::list_refused, crate::proofs::ListLemmas::subject_refused))]
fn made_list<'a>(
    alloc: Global,
    kind: ListKind,
    subject: Subject<'a>,
    list: &[u8],
) -> Result<(Subject<'a>, String), CliFault>
    ensures subject { IfOk result (λ made. spec.IsSubjectOn kind subject.entry made.0) }
    ensures text { IfOk result (λ made. spec.IsMadeOf kind list.now (string_bytes made.1)) }
    ensures refused { IfErr result (Refuses (spec.RefusesMade kind subject.entry list.now)) }
{
    let made = made_text(alloc, kind, subject, list)?;
    let subject = subject_on(alloc, kind, subject)?;
    Ok((subject, made))
}

// Reads a file of this kind for a command.
fn read_by<'a>(
    alloc: Global,
    kind: Option<ListKind>,
    subject: Subject<'a>,
    list: &[u8],
) -> Result<Reading<'a>, CliFault>
    ensures kind { IfOk result (λ read. read.kind ≡ kind) }
    ensures read { IfOk result (λ read. spec.IsMadeBy kind subject.entry list.now
        read.subject read.made) }
    ensures refused { IfErr result (Refuses (spec.RefusesKind kind subject.entry list.now)) }
{
    match kind {
        Some(kind) => {
            let (subject, made) = made_list(alloc, kind, subject, list)?;
            Ok(Reading {
                kind: Some(kind),
                subject,
                made: Some(made),
            })
        }
        None => Ok(Reading {
            kind: None,
            subject,
            made: None,
        }),
    }
}

/// Reads a file for a command. A list is read as the file that `plan import` makes of
/// it. A list of orders has one instance, which needs no name or has the name `-`. Errors of a list
/// are those of `plan import`, then `S8` (a capacity for a list of orders).
pub fn readable<'a>(
    alloc: Global,
    subject: Subject<'a>,
    file: &[u8],
) -> Result<Reading<'a>, CliFault>
    ensures read { IfOk result (λ read. spec.IsReadAs subject.entry file.now read.kind
        read.subject (spec.text_of read.made file.now)) }
    ensures refused { IfErr result (Refuses (spec.RefusesReading subject.entry file.now)) }
{
    let plain = plain_of(alloc, &[], file)?;
    let list = plain.utf8(file);
    let kind = list_kind(alloc, list)?;
    read_by(alloc, kind, subject, list)
}
