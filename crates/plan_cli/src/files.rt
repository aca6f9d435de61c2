//! Tasks on files that are given by their names.

ghost use Rattle.std.specs.Prelude.{◌≡◌, ◌⊎◌, ◌+◌, ◌≤◌, length, None, Some};
ghost use Rattle.std.specs.Prelude.{IfOk, IfErr, IsErrOf, OnOk};
ghost use Rattle.plan_io.specs.Devices.{most_calls};
ghost use Rattle.plan_psplib.specs.Plain.{longest_text};
ghost use Rattle.plan_errors.specs.Faults.{IsUnread};
ghost use Rattle.plan_errors.specs.Output.{HasSinkFailed};
ghost use Rattle.plan_cli.specs.Tasks.{DoesTask, AreRead, bytes_behind};
ghost use Rattle.plan_cli.specs.NamedTexts.{DoesFile, DoesTexts, IsUnreadAmong};

use crate::inputs::{Inputs, SystemInputs};
use crate::named_texts::{NamedText, with_text};
use crate::prepared_tasks::answer_prepared;
use crate::runs::run_task;
use crate::tasks::{Rows, Task};
use crate::watchers::{Log, NoteWatcher, ProofWatcher, SolveWatcher, Unlogged};
use plan_documents::Options;
use plan_errors::{About, CliFault, read_file};
use plan_io::Sink;
use std::alloc::Global;
use std::rt::Files;

/// Runs a task on the file with this name, or on standard input if the name is `-`. The watcher is
/// called during a search of `prove` or `solve`. A file that can't be opened or read is
/// [`CliFault::Input`].
#[tactic(auto, using(plan_errors::proofs::RefusalLemmas::input_unread))]
pub fn run_on_named<I: Inputs, W: Sink, V: ProofWatcher + SolveWatcher + NoteWatcher, L: Log>(
    alloc: Global,
    inputs: &I,
    task: Task<'_>,
    rows: Rows,
    watcher: &mut V,
    log: &mut L,
    path: &str,
    writer: &mut W,
) -> Result<(), CliFault>
    // The text of the task is written for the bytes of that file, or of standard input.
    ensures does { DoesTask task.entry rows (bytes_behind I.Inputs inputs.now path.now)
        (W.taken writer.old) (W.taken writer.new) result }
    ensures writes { W.calls writer.new ≤ W.calls writer.old + most_calls }
    // If a file can't be read, the error tells which one.
    ensures unread { IfErr result (IsUnread About.Plan) }
    // With any other error than that of the output, nothing is written.
    ensures quiet { IfErr result (λ e. (e ≡ CliFault.Output) ⊎ (writer.new ≡ writer.old)) }
    ensures fine { OnOk result (W.faults writer.new ≡ W.faults writer.old) }
    ensures output { IsErrOf result CliFault.Output → HasSinkFailed W.Sink writer.old writer.new }
{
    if path == "-" {
        let mut reader = inputs.standard();
        return run_task(alloc, task, rows, watcher, log, &mut reader, writer);
    }
    let mut reader = inputs.open(path, About::Plan)?;
    run_task(alloc, task, rows, watcher, log, &mut reader, writer)
}

/// Reads the file with this name, or standard input if the name is `-`: at most one byte more than
/// the longest text has. A file that can't be opened or read is [`CliFault::Input`] of this
/// argument.
pub fn read_named<I: Inputs>(
    alloc: Global,
    inputs: &I,
    about: About,
    name: &str,
) -> Result<Vec<u8>, CliFault>
    ensures short { IfOk result (λ bytes. length bytes.items ≤ longest_text + 1) }
    ensures bytes { IfOk result (λ read.
        AreRead read.items (bytes_behind I.Inputs inputs.now name.now)) }
    ensures refused { IfErr result (λ e. (e ≡ CliFault.Memory) ⊎ (e ≡ CliFault.Input about)) }
{
    if name == "-" {
        return read_file(alloc, &mut inputs.standard(), about);
    }
    read_file(alloc, &mut inputs.open(name, about)?, about)
}

// Runs a task on the file with this name, or on standard input if the name is `-`, with the options
// of its list.
#[tactic(auto, using(plan_errors::proofs::RefusalLemmas::input_unread))]
fn run_prepared<I: Inputs, W: Sink, V: ProofWatcher + SolveWatcher + NoteWatcher, L: Log>(
    alloc: Global,
    inputs: &I,
    options: Options<'_>,
    task: Task<'_>,
    rows: Rows,
    watcher: &mut V,
    log: &mut L,
    path: &str,
    writer: &mut W,
) -> Result<(), CliFault>
    ensures does { DoesFile (Some options.entry) task.entry rows
        (bytes_behind I.Inputs inputs.now path.now)
        (W.taken writer.old) (W.taken writer.new) result }
    ensures writes { W.calls writer.new ≤ W.calls writer.old + most_calls }
    ensures unread { IfErr result (IsUnread About.Plan) }
    ensures quiet { IfErr result (λ e. (e ≡ CliFault.Output) ⊎ (writer.new ≡ writer.old)) }
    ensures fine { OnOk result (W.faults writer.new ≡ W.faults writer.old) }
    ensures output { IsErrOf result CliFault.Output → HasSinkFailed W.Sink writer.old writer.new }
{
    let file = read_named(alloc, inputs, About::Plan, path)?;
    answer_prepared(alloc, options, task, rows, watcher, log, &file, writer)
}

/// Runs a task on the file with this name, or on standard input if the name is `-`. With options, a
/// list is read as the plain list that the options make of it. The watcher is called during a search
/// of `prove` or `solve`. A file that can't be opened or read is [`CliFault::Input`].
pub fn run_with_options<I: Inputs, W: Sink, V: ProofWatcher + SolveWatcher + NoteWatcher, L: Log>(
    alloc: Global,
    inputs: &I,
    options: Option<Options<'_>>,
    task: Task<'_>,
    rows: Rows,
    watcher: &mut V,
    log: &mut L,
    path: &str,
    writer: &mut W,
) -> Result<(), CliFault>
    // The text of the task is written for the bytes of that file, or for the list that options make
    // of it.
    ensures does { DoesFile options.entry task.entry rows
        (bytes_behind I.Inputs inputs.now path.now)
        (W.taken writer.old) (W.taken writer.new) result }
    ensures writes { W.calls writer.new ≤ W.calls writer.old + most_calls }
    // If a file can't be read, the error tells which one.
    ensures unread { IfErr result (IsUnread About.Plan) }
    // With any other error than that of the output, nothing is written.
    ensures quiet { IfErr result (λ e. (e ≡ CliFault.Output) ⊎ (writer.new ≡ writer.old)) }
    ensures fine { OnOk result (W.faults writer.new ≡ W.faults writer.old) }
    ensures output { IsErrOf result CliFault.Output → HasSinkFailed W.Sink writer.old writer.new }
{
    match options {
        Some(options) => {
            run_prepared(
                alloc, inputs, options, task, rows, watcher, log, path, writer,
            )
        }
        None => run_on_named(alloc, inputs, task, rows, watcher, log, path, writer),
    }
}

/// Runs a task on a file and on the files of texts with a role in the task. One of all names may
/// be `-` for standard input. The texts are read first, in their order. Each replaces the text with
/// its role in the task. The watcher is called during a search. A file that can't be opened or read
/// is [`CliFault::Input`] of its argument.
#[tactic(auto, using(plan_errors::proofs::RefusalLemmas::input_unread))]
pub fn run_on_texts<I: Inputs, W: Sink, V: ProofWatcher + SolveWatcher + NoteWatcher>(
    alloc: Global,
    inputs: &I,
    options: Option<Options<'_>>,
    task: Task<'_>,
    rows: Rows,
    watcher: &mut V,
    texts: &[NamedText<'_>],
    path: &str,
    writer: &mut W,
) -> Result<(), CliFault>
    // The text of the task is written for the bytes of all files. With options, a list is read as
    // the plain list that the options make of it.
    ensures does { DoesTexts (bytes_behind I.Inputs inputs.now) options.entry task.entry rows
        texts.now (bytes_behind I.Inputs inputs.now path.now)
        (W.taken writer.old) (W.taken writer.new) result }
    ensures writes { W.calls writer.new ≤ W.calls writer.old + most_calls }
    // If a file can't be read, the error tells which one.
    ensures unread { IfErr result (IsUnreadAmong texts.now) }
    // With any other error than that of the output, nothing is written.
    ensures quiet { IfErr result (λ e. (e ≡ CliFault.Output) ⊎ (writer.new ≡ writer.old)) }
    ensures fine { OnOk result (W.faults writer.new ≡ W.faults writer.old) }
    ensures output { IsErrOf result CliFault.Output → HasSinkFailed W.Sink writer.old writer.new }
{
    let [first, rest @ ..] = texts else {
        return run_with_options(
            alloc,
            inputs,
            options,
            task,
            rows,
            watcher,
            &mut Unlogged,
            path,
            writer,
        );
    };
    let text = read_named(alloc, inputs, first.role.about(), first.name)?;
    let task = with_text(task, first.role, &text);
    run_on_texts(
        alloc, inputs, options, task, rows, watcher, rest, path, writer,
    )
}

/// Calls [`run_with_options`] with the system's files and standard input.
pub fn run_on_file<
    R: Files + Input + AllocGlobal,
    W: Sink,
    V: ProofWatcher + SolveWatcher + NoteWatcher,
    L: Log,
>(
    rt: &R,
    options: Option<Options<'_>>,
    task: Task<'_>,
    rows: Rows,
    watcher: &mut V,
    log: &mut L,
    path: &str,
    writer: &mut W,
) -> Result<(), CliFault>
    // The text of the task is written for the bytes that were read.
    ensures does { DoesFile options.entry task.entry rows None
        (W.taken writer.old) (W.taken writer.new) result }
    ensures writes { W.calls writer.new ≤ W.calls writer.old + most_calls }
    // If a file can't be read, the error tells which one.
    ensures unread { IfErr result (IsUnread About.Plan) }
    // With any other error than that of the output, nothing is written.
    ensures quiet { IfErr result (λ e. (e ≡ CliFault.Output) ⊎ (writer.new ≡ writer.old)) }
    ensures fine { OnOk result (W.faults writer.new ≡ W.faults writer.old) }
    ensures output { IsErrOf result CliFault.Output → HasSinkFailed W.Sink writer.old writer.new }
{
    run_with_options(
        rt.alloc(),
        &SystemInputs::new(rt),
        options,
        task,
        rows,
        watcher,
        log,
        path,
        writer,
    )
}

/// Calls [`run_on_texts`] with the system's files and standard input.
pub fn run_on_files<
    R: Files + Input + AllocGlobal,
    W: Sink,
    V: ProofWatcher + SolveWatcher + NoteWatcher,
>(
    rt: &R,
    options: Option<Options<'_>>,
    task: Task<'_>,
    rows: Rows,
    watcher: &mut V,
    texts: &[NamedText<'_>],
    path: &str,
    writer: &mut W,
) -> Result<(), CliFault>
    // The text of the task is written for the bytes that were read.
    ensures does { DoesTexts (λ name. None) options.entry task.entry rows texts.now None
        (W.taken writer.old) (W.taken writer.new) result }
    ensures writes { W.calls writer.new ≤ W.calls writer.old + most_calls }
    // If a file can't be read, the error tells which one.
    ensures unread { IfErr result (IsUnreadAmong texts.now) }
    // With any other error than that of the output, nothing is written.
    ensures quiet { IfErr result (λ e. (e ≡ CliFault.Output) ⊎ (writer.new ≡ writer.old)) }
    ensures fine { OnOk result (W.faults writer.new ≡ W.faults writer.old) }
    ensures output { IsErrOf result CliFault.Output → HasSinkFailed W.Sink writer.old writer.new }
{
    run_on_texts(
        rt.alloc(),
        &SystemInputs::new(rt),
        options,
        task,
        rows,
        watcher,
        texts,
        path,
        writer,
    )
}
