//! Tasks on files that are read with the options of a list.

ghost use Rattle.std.specs.Prelude.{◌≡◌, ◌⊎◌, ◌+◌, ◌≤◌, Some, map};
ghost use Rattle.std.specs.Prelude.{IfOk, IfErr, IsErrOf, OnOk};
ghost use Rattle.plan_io.specs.Devices.{most_calls};
ghost use Rattle.plan_errors.specs.Faults.{IsUnread};
ghost use Rattle.plan_errors.specs.Output.{HasSinkFailed, Refuses, Writes};
ghost use Rattle.plan_table.specs.Overrides.{override_of};
ghost use Rattle.plan_cli.specs.PreparedTasks as spec;

use crate::tasks::{Rows, Task, read_text};
use crate::watchers::{Log, NoteWatcher, ProofWatcher, SolveWatcher};
use plan_documents::{Options, Prepared, prepare};
use plan_errors::{About, CliFault, write_text};
use plan_io::Sink;
use plan_table::Override;
use std::alloc::Global;

// Returns the capacities with which a task reads a list.
fn list_given<'a>(task: Task<'a>) -> &'a [Override<'a>]
    ensures { map override_of result.now ≡ spec.list_given task.entry }
{
    match task {
        Task::Import { given } => given,
        _ => &[],
    }
}

// Tells a watcher the notes on what a task has read of a file, if there are notes.
fn tell_prepared<V: NoteWatcher>(
    alloc: Global,
    list: &Prepared,
    given: &[Override<'_>],
    file: &[u8],
    watcher: &mut V,
) {
    if let Ok(Some(line)) = list.notes(alloc, given, file) {
        watcher.note(line);
    }
}

// Returns the text of a task for the bytes of a file, with the options of its list. The watcher is
// told the notes on the list.
#[tactic(auto, using(crate::proofs::PreparedLemmas::read_prepared, crate::proofs::PreparedLemmas::refuse_prepared, crate::proofs::PreparedLemmas::refuse_unprepared))]
fn prepared_text<V: ProofWatcher + SolveWatcher + NoteWatcher, L: Log>(
    alloc: Global,
    options: Options<'_>,
    task: Task<'_>,
    rows: Rows,
    file: &[u8],
    watcher: &mut V,
    log: &mut L,
) -> Result<Vec<u8>, CliFault>
    ensures made { IfOk result (λ text.
        spec.ShowsPrepared (Some options.entry) rows task.entry file.now text.items) }
    ensures refused { IfErr result (Refuses
        (spec.RefusesPrepared (Some options.entry) task.entry file.now)) }
{
    let given = list_given(task);
    let list = prepare(alloc, Some(options), given, file)?;
    let text = read_text(alloc, task, rows, list.text(file), watcher, log)?;
    tell_prepared(alloc, &list, given, file, watcher);
    Ok(text)
}

/// Writes the text of a task for a file that was read, with the options of its list.
#[tactic(auto, using(plan_errors::proofs::RefusalLemmas::refuses_unread, plan_errors::proofs::RefusalLemmas::output_unread,))]
pub(crate) fn answer_prepared<W: Sink, V: ProofWatcher + SolveWatcher + NoteWatcher, L: Log>(
    alloc: Global,
    options: Options<'_>,
    task: Task<'_>,
    rows: Rows,
    watcher: &mut V,
    log: &mut L,
    file: &[u8],
    writer: &mut W,
) -> Result<(), CliFault>
    ensures does { Writes
        (spec.ShowsPrepared (Some options.entry) rows task.entry file.now)
        (spec.RefusesPrepared (Some options.entry) task.entry file.now)
        (W.taken writer.old) (W.taken writer.new) result }
    ensures writes { W.calls writer.new ≤ W.calls writer.old + most_calls }
    ensures unread { IfErr result (IsUnread About.Plan) }
    ensures quiet { IfErr result (λ e. (e ≡ CliFault.Output) ⊎ (writer.new ≡ writer.old)) }
    ensures fine { OnOk result (W.faults writer.new ≡ W.faults writer.old) }
    ensures output { IsErrOf result CliFault.Output → HasSinkFailed W.Sink writer.old writer.new }
{
    let text = prepared_text(alloc, options, task, rows, file, watcher, log)?;
    write_text(writer, &text)
}
