//! `plan check` with its verdict as a value, which decides the exit status of `check --status`.

ghost use Rattle.std.specs.Prelude.{◌≡◌, IfOk, IfErr};
ghost use Rattle.plan_errors.specs.Output.{Refuses};
ghost use Rattle.plan_cli.specs.CheckRun as spec;
ghost use Rattle.plan_documents.specs.Documents.{IsOfSubject};
ghost use Rattle.plan_documents.specs.Lists.{ReadsAs};
ghost use Rattle.plan_cli.specs.Tasks.{IsLineOf, IsNamedCheck, RefusesRead, ShowsKind};
ghost use Rattle.plan_cli.specs.Tasks.{ShowsRead, ShowsTask, check_in, list_check};
ghost use Rattle.plan_cli.specs.Views.{view_of};

use crate::tasks::{self, Rows, Task};
use crate::verdicts::{shown_verdict, verdict_of};
use crate::views::{View, named_text, plain_text, text_in};
use plan_documents::{Subject, plan_of, read_document, readable, verdict_sentence};
use plan_errors::CliFault;
use plan_sgs::Verdict;
use plan_table::ListKind;
use std::alloc::{AllocError, Global};

/// The text of a check, and its verdict.
#[derive(Drop)]
pub struct Checked {
    pub text: Vec<u8>,
    pub verdict: Verdict,
}

// Returns the text of a verdict with these rows, which have no names.
fn rows_text(alloc: Global, rows: Rows, view: View) -> Result<Vec<u8>, AllocError>
    ensures { IfOk result (λ text. text.items ≡ spec.rows_text rows (view_of view)) }
{
    match rows {
        Rows::Plain => plain_text(alloc, view),
        Rows::Named | Rows::Listed => named_text(alloc, view, &[], &[], &[]),
        Rows::In(format) => text_in(alloc, format, view, &[], &[], &[]),
    }
}

// Returns the text of [`Task::Check`] for a file, which is no list, with these rows, and the verdict
// that the text gives.
fn checked_text(
    alloc: Global,
    rows: Rows,
    starts: &[u8],
    subject: Subject<'_>,
    file: &[u8],
) -> Result<Checked, CliFault>
    ensures text { IfOk result (λ checked.
        ShowsTask rows (Task.Check starts.entry subject.entry) file.now checked.text.items) }
    ensures verdict { IfOk result (λ checked.
        IsOfSubject subject.entry (spec.IsVerdictOn starts.now) file.now checked.verdict) }
    ensures refused { IfErr result (Refuses
        (IsLineOf (Task.Check starts.entry subject.entry) file.now)) }
{
    let document = read_document(alloc, subject, file)?;
    let plan = plan_of(alloc, &document, file)?;
    let verdict = verdict_of(alloc, starts, &plan)?;
    let view = shown_verdict(alloc, &plan, verdict)?;
    let text = rows_text(alloc, rows, view)?;
    Ok(Checked { text, verdict })
}

// Returns the text of [`Task::Check`] for the file that was made of a list, with these rows, and the
// verdict that the text gives. The text has the ids and the names in the file.
fn list_checked(
    alloc: Global,
    rows: Rows,
    starts: &[u8],
    subject: Subject<'_>,
    file: &[u8],
) -> Result<Checked, CliFault>
    ensures text { IfOk result (λ checked.
        IsNamedCheck rows starts.now subject.entry file.now checked.text.items) }
    ensures verdict { IfOk result (λ checked.
        IsOfSubject subject.entry (spec.IsVerdictOn starts.now) file.now checked.verdict) }
    ensures refused { IfErr result (Refuses
        (IsLineOf (Task.Check starts.entry subject.entry) file.now)) }
{
    let document = read_document(alloc, subject, file)?;
    let plan = plan_of(alloc, &document, file)?;
    let verdict = verdict_of(alloc, starts, &plan)?;
    let sentence = verdict_sentence(alloc, subject, file, &plan, verdict)?;
    let text = tasks::rows_text(alloc, rows, View::Verdict(sentence))?;
    Ok(Checked { text, verdict })
}

// Returns the starts and the subject of a check.
fn check_in(task: Task<'_>) -> Option<(&[u8], Subject<'_>)>
    ensures { result ≡ check_in task.entry }
{
    match task {
        Task::Check { starts, subject } => Some((starts, subject)),
        _ => None,
    }
}

/// Returns the starts and the subject of a check of a list.
pub(crate) fn list_check(kind: Option<ListKind>, task: Task<'_>) -> Option<(&[u8], Subject<'_>)>
    ensures { result ≡ list_check kind task.entry }
{
    match kind {
        Some(_) => check_in(task),
        None => None,
    }
}

/// Returns the text of a check of a list, with these rows.
pub(crate) fn list_check_text(
    alloc: Global,
    rows: Rows,
    starts: &[u8],
    subject: Subject<'_>,
    file: &[u8],
) -> Result<Vec<u8>, CliFault>
    ensures made { IfOk result (λ text.
        IsNamedCheck rows starts.now subject.entry file.now text.items) }
    ensures refused { IfErr result (Refuses
        (IsLineOf (Task.Check starts.entry subject.entry) file.now)) }
{
    Ok(list_checked(alloc, rows, starts, subject, file)?.text)
}

// Returns the text of [`Task::Check`] for a file of this kind, with these rows, and the verdict that
// the text gives.
fn kind_checked(
    alloc: Global,
    kind: Option<ListKind>,
    rows: Rows,
    starts: &[u8],
    subject: Subject<'_>,
    file: &[u8],
) -> Result<Checked, CliFault>
    ensures text { IfOk result (λ checked.
        ShowsKind kind rows (Task.Check starts.entry subject.entry) subject.entry file.now
        checked.text.items) }
    ensures verdict { IfOk result (λ checked.
        IsOfSubject subject.entry (spec.IsVerdictOn starts.now) file.now checked.verdict) }
    ensures refused { IfErr result (Refuses
        (IsLineOf (Task.Check starts.entry subject.entry) file.now)) }
{
    match kind {
        Some(_) => list_checked(alloc, rows, starts, subject, file),
        None => checked_text(alloc, rows, starts, subject, file),
    }
}

/// Returns the text of [`Task::Check`] for a file, with these rows, and the verdict that the text
/// gives. A list is read as the file that `plan import` makes of it, and the text has its ids and
/// names.
pub fn check_text(
    alloc: Global,
    rows: Rows,
    starts: &[u8],
    subject: Subject<'_>,
    file: &[u8],
) -> Result<Checked, CliFault>
    ensures text { IfOk result (λ checked. ShowsRead rows
        (Task.Check starts.entry subject.entry) file.now checked.text.items) }
    ensures verdict { IfOk result (λ checked. ReadsAs subject.entry file.now
        (λ kind s read. IsOfSubject s (spec.IsVerdictOn starts.now) read checked.verdict)) }
    ensures refused { IfErr result (Refuses
        (RefusesRead (Task.Check starts.entry subject.entry) file.now)) }
{
    let read = readable(alloc, subject, file)?;
    kind_checked(
        alloc,
        read.kind,
        rows,
        starts,
        read.subject,
        read.text(file),
    )
}
