//! The sheets of files that are given by their names.

ghost use Rattle.std.specs.Prelude.{◌≡◌, ◌⊎◌, ◌+◌, ◌≤◌, None, IfErr, IsErrOf, OnOk};
ghost use Rattle.plan_io.specs.Devices.{most_calls};
ghost use Rattle.plan_errors.specs.Faults.{IsUnread};
ghost use Rattle.plan_errors.specs.Output.{HasSinkFailed, Refuses, Writes};
ghost use Rattle.plan_documents.specs.Lines.{IfText};
ghost use Rattle.plan_cli.specs.NamedTexts.{dates_with};
ghost use Rattle.plan_cli.specs.Tasks.{bytes_behind};
ghost use Rattle.plan_print.specs.Prints as spec;

use crate::sheets::{Sheet, read_sheet};
use plan_cli::{
    CliFault, Dates, Inputs, NoteWatcher, Options, Origin, ProofWatcher, SolveWatcher, Subject,
    SystemInputs, prepare, read_named,
};
use plan_errors::{About, write_text};
use plan_io::Sink;
use std::alloc::Global;
use std::rt::Files;

/// The origin of a schedule, with the name of its file.
#[derive(Clone, Copy, Debug, Drop)]
pub enum NamedOrigin<'a> {
    /// The schedule by the priority rule with this name.
    Rule(&'a str),
    /// The schedule by the default rule: `lft` for a project, `mwkr` for a job shop.
    Default,
    /// The feasible schedule whose starts the file with this name lists.
    Starts(&'a str),
    /// The schedule that a search of at most this many conflicts finds.
    Solved { conflicts: u64 },
}

/// A sheet to print, and the names of the files that it is made from. One of them may be `-` for
/// standard input.
#[derive(Clone, Copy, Debug, Drop)]
pub struct Print<'a> {
    pub sheet: Sheet<'a>,
    /// The options of the list, if some are given.
    pub options: Option<Options<'a>>,
    pub subject: Subject<'a>,
    pub origin: NamedOrigin<'a>,
    /// The name of the file of holidays, if there is one.
    pub holidays: Option<&'a str>,
    /// The name of the file of the project or the job shop.
    pub file: &'a str,
}

// Returns dates with the holidays in a text.
fn dates_with<'a>(dates: Dates<'a>, holidays: &'a [u8]) -> Dates<'a>
    ensures { result ≡ dates_with dates.entry holidays.entry }
{
    Dates {
        start: dates.start,
        marks: dates.marks,
        holidays,
    }
}

// Returns dates with the holidays in a text, if there are dates.
fn some_with<'a>(dates: Option<Dates<'a>>, holidays: &'a [u8]) -> Option<Dates<'a>>
    ensures { result ≡ spec.some_with dates.entry holidays.entry }
{
    match dates {
        Some(dates) => Some(dates_with(dates, holidays)),
        None => None,
    }
}

// Returns the sheet with the holidays in a text, if it has dates.
fn sheet_with<'a>(sheet: Sheet<'a>, holidays: &'a [u8]) -> Sheet<'a>
    ensures { result ≡ spec.sheet_with sheet.entry holidays.entry }
{
    match sheet {
        Sheet::Events { dates, events } => Sheet::Events {
            dates: dates_with(dates, holidays),
            events,
        },
        Sheet::Chart(title) => Sheet::Chart(title),
        Sheet::Report {
            title,
            dates,
            style,
            by_job,
        } => Sheet::Report {
            title,
            dates: some_with(dates, holidays),
            style,
            by_job,
        },
    }
}

// Returns a sheet of a file that was read, with options of its list. The watcher is told the notes on
// the list.
#[tactic(auto, using(plan_cli::proofs::PreparedLemmas::read_prepared, plan_cli::proofs::PreparedLemmas::refuse_prepared, plan_cli::proofs::PreparedLemmas::refuse_unprepared))]
fn prepared_sheet<V: ProofWatcher + SolveWatcher + NoteWatcher>(
    alloc: Global,
    options: Option<Options<'_>>,
    sheet: Sheet<'_>,
    subject: Subject<'_>,
    origin: Option<Origin<'_>>,
    file: &[u8],
    watcher: &mut V,
) -> Result<String, CliFault>
    ensures made { IfText result (spec.IsSheetPrepared options.entry sheet.entry subject.entry
        origin.entry file.now) }
    ensures refused { IfErr result (Refuses (spec.RefusesSheetPrepared options.entry sheet.entry
        subject.entry origin.entry file.now)) }
{
    let list = prepare(alloc, options, &[], file)?;
    let text = read_sheet(alloc, sheet, subject, origin, list.text(file), watcher)?;
    if let Ok(Some(line)) = list.notes(alloc, &[], file) {
        watcher.note(line);
    }
    Ok(text)
}

// Prints a sheet of a file that was read.
#[tactic(auto, using(plan_errors::proofs::RefusalLemmas::refuses_unread, plan_errors::proofs::RefusalLemmas::output_unread,))]
fn print_read<W: Sink, V: ProofWatcher + SolveWatcher + NoteWatcher>(
    alloc: Global,
    options: Option<Options<'_>>,
    sheet: Sheet<'_>,
    subject: Subject<'_>,
    origin: Option<Origin<'_>>,
    file: &[u8],
    watcher: &mut V,
    writer: &mut W,
) -> Result<(), CliFault>
    ensures does { Writes
        (spec.IsSheetPrepared options.entry sheet.entry subject.entry origin.entry file.now)
        (spec.RefusesSheetPrepared options.entry sheet.entry subject.entry origin.entry file.now)
        (W.taken writer.old) (W.taken writer.new) result }
    ensures writes { W.calls writer.new ≤ W.calls writer.old + most_calls }
    ensures unread { IfErr result (IsUnread About.Plan) }
    ensures quiet { IfErr result (λ e. (e ≡ CliFault.Output) ⊎ (writer.new ≡ writer.old)) }
    ensures fine { OnOk result (W.faults writer.new ≡ W.faults writer.old) }
    ensures output { IsErrOf result CliFault.Output → HasSinkFailed W.Sink writer.old writer.new }
{
    let text = prepared_sheet(alloc, options, sheet, subject, origin, file, watcher)?;
    write_text(writer, text.as_bytes())
}

// Prints a sheet of the file with this name.
#[tactic(auto, using(plan_errors::proofs::RefusalLemmas::input_unread))]
fn print_from<I: Inputs, W: Sink, V: ProofWatcher + SolveWatcher + NoteWatcher>(
    alloc: Global,
    inputs: &I,
    options: Option<Options<'_>>,
    sheet: Sheet<'_>,
    subject: Subject<'_>,
    origin: Option<Origin<'_>>,
    file: &str,
    watcher: &mut V,
    writer: &mut W,
) -> Result<(), CliFault>
    ensures does { spec.PrintsFrom (bytes_behind I.Inputs inputs.now file.now) options.entry
        sheet.entry subject.entry origin.entry (W.taken writer.old) (W.taken writer.new) result }
    ensures writes { W.calls writer.new ≤ W.calls writer.old + most_calls }
    ensures unread { IfErr result (IsUnread About.Plan) }
    ensures quiet { IfErr result (λ e. (e ≡ CliFault.Output) ⊎ (writer.new ≡ writer.old)) }
    ensures fine { OnOk result (W.faults writer.new ≡ W.faults writer.old) }
    ensures output { IsErrOf result CliFault.Output → HasSinkFailed W.Sink writer.old writer.new }
{
    let bytes = read_named(alloc, inputs, About::Plan, file)?;
    print_read(
        alloc, options, sheet, subject, origin, &bytes, watcher, writer,
    )
}

// Prints a sheet of the file with this name. If the schedule has its starts in a file, that one is
// read first.
#[tactic(auto, using(plan_errors::proofs::RefusalLemmas::input_unread))]
fn print_by<I: Inputs, W: Sink, V: ProofWatcher + SolveWatcher + NoteWatcher>(
    alloc: Global,
    inputs: &I,
    options: Option<Options<'_>>,
    sheet: Sheet<'_>,
    subject: Subject<'_>,
    origin: NamedOrigin<'_>,
    file: &str,
    watcher: &mut V,
    writer: &mut W,
) -> Result<(), CliFault>
    ensures does { spec.PrintsNamed (bytes_behind I.Inputs inputs.now) options.entry sheet.entry
        subject.entry origin.entry file.now (W.taken writer.old) (W.taken writer.new) result }
    ensures writes { W.calls writer.new ≤ W.calls writer.old + most_calls }
    ensures unread { IfErr result (spec.IsUnreadBy origin.entry) }
    ensures quiet { IfErr result (λ e. (e ≡ CliFault.Output) ⊎ (writer.new ≡ writer.old)) }
    ensures fine { OnOk result (W.faults writer.new ≡ W.faults writer.old) }
    ensures output { IsErrOf result CliFault.Output → HasSinkFailed W.Sink writer.old writer.new }
{
    match origin {
        NamedOrigin::Rule(name) => {
            print_from(
                alloc,
                inputs,
                options,
                sheet,
                subject,
                Some(Origin::Rule(name)),
                file,
                watcher,
                writer,
            )
        }
        NamedOrigin::Default => {
            print_from(
                alloc, inputs, options, sheet, subject, None, file, watcher, writer,
            )
        }
        NamedOrigin::Solved { conflicts } => {
            print_from(
                alloc,
                inputs,
                options,
                sheet,
                subject,
                Some(Origin::Solved { conflicts }),
                file,
                watcher,
                writer,
            )
        }
        NamedOrigin::Starts(name) => {
            let starts = read_named(alloc, inputs, About::Starts, name)?;
            let origin = Some(Origin::Starts(&starts));
            print_from(
                alloc, inputs, options, sheet, subject, origin, file, watcher, writer,
            )
        }
    }
}

/// Prints a sheet. The file of the holidays is read first, then that of the starts, then that of
/// the project or the job shop. A list is read as the file that `plan import` makes of it, or of the
/// plain list that its options make of it. The watcher is called during a search, and can stop it; it
/// is told the notes on a list. A file that can't be opened or read is [`CliFault::Input`] of its
/// argument.
///
/// Nothing is written unless the whole sheet was made. If several errors apply, that of the file
/// comes first, then those of the capacities, of the schedule, of the calendar, and of a day after
/// 9999-12-31.
#[tactic(auto, using(plan_errors::proofs::RefusalLemmas::input_unread))]
pub fn print_on_named<I: Inputs, W: Sink, V: ProofWatcher + SolveWatcher + NoteWatcher>(
    alloc: Global,
    inputs: &I,
    print: Print<'_>,
    watcher: &mut V,
    writer: &mut W,
) -> Result<(), CliFault>
    // The sheet is written for the bytes of these files.
    ensures does { spec.Prints (bytes_behind I.Inputs inputs.now) print.entry
        (W.taken writer.old) (W.taken writer.new) result }
    ensures writes { W.calls writer.new ≤ W.calls writer.old + most_calls }
    // If a file can't be read, the error tells which one.
    ensures unread { IfErr result (spec.IsUnreadIn print.entry) }
    // With any other error than that of the output, nothing is written.
    ensures quiet { IfErr result (λ e. (e ≡ CliFault.Output) ⊎ (writer.new ≡ writer.old)) }
    ensures fine { OnOk result (W.faults writer.new ≡ W.faults writer.old) }
    ensures output { IsErrOf result CliFault.Output → HasSinkFailed W.Sink writer.old writer.new }
{
    let Print {
        sheet,
        options,
        subject,
        origin,
        holidays,
        file,
    } = print;
    let Some(name) = holidays else {
        return print_by(
            alloc, inputs, options, sheet, subject, origin, file, watcher, writer,
        );
    };
    let days = read_named(alloc, inputs, About::Holidays, name)?;
    print_by(
        alloc,
        inputs,
        options,
        sheet_with(sheet, &days),
        subject,
        origin,
        file,
        watcher,
        writer,
    )
}

/// Calls [`print_on_named`] with the system's files and standard input.
pub fn print_on_files<
    R: Files + Input + AllocGlobal,
    W: Sink,
    V: ProofWatcher + SolveWatcher + NoteWatcher,
>(rt: &R, print: Print<'_>, watcher: &mut V, writer: &mut W) -> Result<(), CliFault>
    // The sheet is written for the bytes that were read.
    ensures does { spec.Prints (λ _. None) print.entry
        (W.taken writer.old) (W.taken writer.new) result }
    ensures writes { W.calls writer.new ≤ W.calls writer.old + most_calls }
    // If a file can't be read, the error tells which one.
    ensures unread { IfErr result (spec.IsUnreadIn print.entry) }
    // With any other error than that of the output, nothing is written.
    ensures quiet { IfErr result (λ e. (e ≡ CliFault.Output) ⊎ (writer.new ≡ writer.old)) }
    ensures fine { OnOk result (W.faults writer.new ≡ W.faults writer.old) }
    ensures output { IsErrOf result CliFault.Output → HasSinkFailed W.Sink writer.old writer.new }
{
    print_on_named(rt.alloc(), &SystemInputs::new(rt), print, watcher, writer)
}
