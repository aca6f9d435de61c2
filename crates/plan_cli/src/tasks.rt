//! The tasks on a file, and the texts that they write.

ghost use Rattle.std.specs.Prelude.{◌≡◌, None, Some, map, IfOk, IfErr};
ghost use Rattle.plan_table.specs.Names.{name_of};
ghost use Rattle.plan_errors.specs.Output.{Refuses};
ghost use Rattle.plan_views.specs.LinkColumns.{links_of};
ghost use Rattle.plan_cli.specs.Tasks.{IsFormattedText, IsLineOf, IsListedText, IsNamedText, IsTextOf};
ghost use Rattle.plan_cli.specs.Tasks.{ShowsTask, names_for, ids_for, AreLinksFor};
ghost use Rattle.plan_cli.specs.Tasks as spec;
ghost use Rattle.plan_cli.specs.TaskViews.{IsViewOf};
ghost use Rattle.plan_cli.specs.Views.{IfView, view_of};

use crate::calendars::Dates;
use crate::checks::{list_check, list_check_text};
use crate::commands::{Command, subject_view};
use crate::comparisons::Pair;
use crate::links::{project_links_in, subject_links};
use crate::list_texts::timed_list;
use crate::names::names_in;
use crate::order_tables::{order_rows_text, order_text, subject_shop};
use crate::origins::Origin;
use crate::proof::proof_view;
use crate::slacks::slacks_of;
use crate::tables::dates_of;
use crate::views::{View, named_text, plain_text, text_in};
use crate::watchers::{Log, ProofWatcher, SolveWatcher};
use plan_documents::{
    Capacity, Options, Subject, file_import_text, file_shop_text, ids_of_rows, names_of_lines,
    names_of_rows, readable,
};
use plan_errors::CliFault;
use plan_formats::Format;
use plan_table::{ListKind, NameLine, Override, activity_names, order_names};
use plan_views::{ActivityLinks, MomentStyle};
use std::alloc::{AllocError, Global};

/// A text to print for a project file or for an instance in a job shop file.
///
/// A rule and an instance are given by their names; `-` is the one instance of a file without
/// names. A project is scheduled with the capacities of its file unless others are given, a job
/// shop with all machines open.
#[derive(Clone, Copy, Debug, Drop)]
pub enum Task<'a> {
    /// The date table of a project (critical path method, Kelley and Walker 1959).
    Dates,
    /// The schedule table by a rule. The rules of a project are `lft`, `slk`, `spt`, `mts` and
    /// `num` (serial schedule generation, Kelley 1963; rules, Kolisch 1996), those of a job shop
    /// `spt`, `mwkr` and `fcfs` (Giffler and Thompson 1960). Errors of the schedule: `S1` (a need
    /// above the capacity), `S3` (unknown rule). The given capacities of a subject replace those of
    /// the file. Their error is `S8` (no such resource), before the others.
    Schedule {
        rule: &'a str,
        subject: Subject<'a>,
    },
    /// The Gantt chart of a schedule: the time units of a cell, and a line of cells for each
    /// activity or machine. Errors of starts that are listed: those of [`Task::Check`], then `S10`
    /// with the verdict if they aren't feasible.
    Chart {
        origin: Origin<'a>,
        subject: Subject<'a>,
    },
    /// The working days of a schedule, those of the first and of the last time unit of each
    /// activity or step. A time unit is a working day, unless the style has hours. Errors of the
    /// calendar: `G1` (the date), `G2` (the marks), `G5` and `G6` (the holidays), `G3` (a day after
    /// 9999-12-31).
    Days {
        origin: Origin<'a>,
        dates: Dates<'a>,
        /// Weekdays and times of day, or none for plain dates.
        style: Option<&'a MomentStyle>,
        subject: Subject<'a>,
    },
    /// The names of the instances in a job shop file, one on each line, in the order of the file. A
    /// name that occurs twice is written twice, and other tasks read the first instance. The only
    /// errors of the file are `F1` (its length) and `F2` (a zero byte).
    Names,
    /// The first fault in starts, in a sentence, or `active`. The faults in order: a broken arc, a
    /// capacity that is exceeded, an activity that can start earlier by itself. For a job shop: a
    /// step that starts before the one before it in the job ends, two steps at a time on a machine,
    /// a step that can start earlier by itself. The starts are a text of one number for each
    /// activity or step in order, 0–10,000,000. Errors: `S1`, then those of the starts (`F1`, `F2`,
    /// `F6`, `F9`, `F10`), whose line ends with `of the starts`.
    Check {
        starts: &'a [u8],
        subject: Subject<'a>,
    },
    /// The slack of each activity in a feasible schedule: the greatest delay such that each delay
    /// up to it is feasible, while all others keep their starts and the makespan stays. The last
    /// line is a chain of activities without slack. Errors: those of [`Task::Check`], `S10` with
    /// the verdict if the starts aren't feasible, `S9` (the end is after 10,000,000).
    Slack {
        starts: &'a [u8],
        capacities: &'a [Capacity<'a>],
    },
    /// The comparison of two schedules A and B: a line for each activity or step with both starts
    /// and the shift from A to B, and for each schedule its makespan and the verdict of
    /// [`Task::Check`]. Errors: those of [`Task::Check`] for A, then for B; the line ends with
    /// `of the starts A` or `of the starts B`.
    Compare {
        starts: Pair<'a>,
        subject: Subject<'a>,
    },
    /// The comparison of two schedules of two lists or projects by the ids of their activities: A
    /// is one of the old file, whose bytes are given, and B one of the file of the task. A line for
    /// each activity has its id, both starts and the shift. Errors: `T3` if the file has no ids,
    /// those of the old file, whose line ends with `of the old list`, and then those of the starts
    /// as for [`Task::Compare`].
    CompareLists {
        old: &'a [u8],
        starts: Pair<'a>,
        subject: Subject<'a>,
    },
    /// The best schedule that a search within a budget finds: `optimal` or `budget` with the
    /// makespan, and the schedule table. The budget is the greatest number of words that the search
    /// visits, 1–200,000. Errors: `S1`, then `S5` (more than 40 activities or 100 steps), `S6` (the
    /// budget).
    Best {
        budget: &'a str,
        subject: Subject<'a>,
    },
    /// A schedule of a job shop and a lower bound of its least makespan, which a search of at most
    /// this many nodes finds. The number of nodes is 1–1,000,000,000. The first line is `optimal`
    /// with the makespan, or `between` with the lower bound and the makespan. The schedule table
    /// follows. Error: `S7` (the number of nodes).
    Prove {
        nodes: &'a str,
        instance: &'a str,
    },
    /// A schedule and a lower bound of the least makespan, which a search of at most this many
    /// conflicts finds (for a project lazy clause generation, Ohrimenko, Stuckey and Codish 2009).
    /// A number outside 1–1,000,000,000 counts as the nearest one inside. The text is like that of
    /// [`Task::Prove`]. Error: `S1`.
    Solve {
        conflicts: u64,
        subject: Subject<'a>,
    },
    /// The planner's own list of activities, read with these options, with the start, the finish
    /// and the slack of each activity in a schedule. With dates the start and the finish are
    /// working days. Errors: those of the list, `T3` (no list of activities), those of the schedule
    /// and of the calendar, then `T1` and `T4` (a list that can't have these columns).
    List {
        origin: Origin<'a>,
        dates: Option<Dates<'a>>,
        subject: Subject<'a>,
        options: Option<Options<'a>>,
    },
    /// The project file of a planner's list, a CSV table of activities with names, with capacities
    /// that are given; or the job shop file of a list of orders. Errors: `T1` to `T19`.
    Import {
        given: &'a [Override<'a>],
    },
    /// The job shop file of a list of orders, a CSV table of steps. Errors: `T1` to `T3`, `T5`,
    /// `T6`, `T12`, `T13`, `T15`, `T18`.
    ImportShop,
}

/// The rows of a text.
#[derive(Clone, Copy, Debug, PartialEq, Eq)]
pub enum Rows {
    /// Without names.
    Plain,
    /// With the names of activities, orders or machines that the file contains, and the ids of
    /// activities in the place of their numbers.
    Named,
    /// The same for a list, with the resources and the predecessors of activities.
    Listed,
    /// As JSON or CSV, with these names and ids, and with the resources and the predecessors of
    /// activities that have ids. A file that a task makes stays as it is.
    In(Format),
}

// Returns what a task shows for a file.
fn view_of<V: ProofWatcher + SolveWatcher, L: Log>(
    alloc: Global,
    task: Task<'_>,
    file: &[u8],
    watcher: &mut V,
    log: &mut L,
) -> Result<View, CliFault>
    ensures made { IfView result (IsViewOf task.entry file.now) }
    ensures refused { IfErr result (Refuses (IsLineOf task.entry file.now)) }
{
    match task {
        Task::Dates => dates_of(alloc, file),
        Task::Names => names_in(alloc, file),
        Task::Slack { starts, capacities } => slacks_of(alloc, starts, capacities, file),
        Task::Prove { nodes, instance } => proof_view(alloc, nodes, instance, file, watcher),
        Task::Import { given } => {
            let text = file_import_text(alloc, given, file)?;
            Ok(View::Text(text.into_bytes()))
        }
        Task::ImportShop => Ok(View::Text(file_shop_text(alloc, file)?.into_bytes())),
        Task::List {
            origin,
            dates,
            subject,
            options,
        } => {
            let text = timed_list(alloc, origin, dates, subject, options, file, watcher, log)?;
            Ok(View::Text(text))
        }
        Task::Schedule { rule, subject } => {
            let command = Command::Schedule(rule);
            subject_view(alloc, command, subject, file, watcher, log)
        }
        Task::Chart { origin, subject } => {
            let command = Command::Chart(origin);
            subject_view(alloc, command, subject, file, watcher, log)
        }
        Task::Days {
            origin,
            dates,
            style,
            subject,
        } => {
            let command = Command::Days(origin, dates, style);
            subject_view(alloc, command, subject, file, watcher, log)
        }
        Task::Check { starts, subject } => {
            let command = Command::Check(starts);
            subject_view(alloc, command, subject, file, watcher, log)
        }
        Task::Compare { starts, subject } => {
            let command = Command::Compare(starts);
            subject_view(alloc, command, subject, file, watcher, log)
        }
        Task::CompareLists {
            old,
            starts,
            subject,
        } => {
            let command = Command::CompareLists(subject, old, starts);
            subject_view(alloc, command, subject, file, watcher, log)
        }
        Task::Best { budget, subject } => {
            let command = Command::Best(budget);
            subject_view(alloc, command, subject, file, watcher, log)
        }
        Task::Solve { conflicts, subject } => {
            let command = Command::Solve(conflicts);
            subject_view(alloc, command, subject, file, watcher, log)
        }
    }
}

// Returns the names for the rows of a task.
fn names_for<'a>(
    alloc: Global,
    task: Task<'_>,
    file: &'a [u8],
) -> Result<Vec<NameLine<'a>>, AllocError>
    ensures { IfOk result (λ names. map name_of names.items ≡ names_for task.entry file.now) }
{
    match task {
        Task::Dates | Task::Slack { .. } => activity_names(alloc, file),
        Task::Schedule { subject, .. }
        | Task::Days { subject, .. }
        | Task::Compare { subject, .. }
        | Task::Best { subject, .. }
        | Task::Solve { subject, .. } => names_of_rows(alloc, subject, file),
        Task::Chart { subject, .. } => names_of_lines(alloc, subject, file),
        Task::Prove { instance, .. } => order_names(alloc, file, instance.as_bytes()),
        _ => Ok(Vec::new(alloc)),
    }
}

// Returns the ids for the rows of a task.
fn ids_for<'a>(
    alloc: Global,
    task: Task<'_>,
    file: &'a [u8],
) -> Result<Vec<NameLine<'a>>, AllocError>
    ensures { IfOk result (λ ids. map name_of ids.items ≡ ids_for task.entry file.now) }
{
    match task {
        Task::Dates | Task::Slack { .. } => ids_of_rows(alloc, Subject::Project(&[]), file),
        Task::Schedule { subject, .. }
        | Task::Chart { subject, .. }
        | Task::Days { subject, .. }
        | Task::Compare { subject, .. }
        | Task::Best { subject, .. }
        | Task::Solve { subject, .. } => ids_of_rows(alloc, subject, file),
        _ => Ok(Vec::new(alloc)),
    }
}

// Returns the resources and the predecessors for the rows of a task, whose activities have these
// ids.
fn links_for(
    alloc: Global,
    task: Task<'_>,
    ids: &[NameLine<'_>],
    file: &[u8],
) -> Result<Vec<ActivityLinks>, AllocError>
    ensures { IfOk result (λ links. AreLinksFor task.entry (map name_of ids.now) file.now
        (map links_of links.items)) }
{
    match task {
        Task::Slack { capacities, .. } => project_links_in(alloc, capacities, ids, file),
        Task::Schedule { subject, .. }
        | Task::Days { subject, .. }
        | Task::Compare { subject, .. }
        | Task::Best { subject, .. }
        | Task::Solve { subject, .. } => subject_links(alloc, subject, ids, file),
        _ => Ok(Vec::new(alloc)),
    }
}

// Returns the text of what a task shows for a file, without names.
fn text_of<V: ProofWatcher + SolveWatcher, L: Log>(
    alloc: Global,
    task: Task<'_>,
    file: &[u8],
    watcher: &mut V,
    log: &mut L,
) -> Result<Vec<u8>, CliFault>
    ensures made { IfOk result (λ text. IsTextOf task.entry file.now text.items) }
    ensures refused { IfErr result (Refuses (IsLineOf task.entry file.now)) }
{
    let view = view_of(alloc, task, file, watcher, log)?;
    Ok(plain_text(alloc, view)?)
}

// Returns the text of what a task shows for a file, with names and ids.
fn named_text_of<V: ProofWatcher + SolveWatcher, L: Log>(
    alloc: Global,
    task: Task<'_>,
    file: &[u8],
    watcher: &mut V,
    log: &mut L,
) -> Result<Vec<u8>, CliFault>
    ensures made { IfOk result (λ text. IsNamedText task.entry file.now text.items) }
    ensures refused { IfErr result (Refuses (IsLineOf task.entry file.now)) }
{
    let view = view_of(alloc, task, file, watcher, log)?;
    let ids = ids_for(alloc, task, file)?;
    let names = names_for(alloc, task, file)?;
    Ok(named_text(alloc, view, &ids, &names, &[])?)
}

// Returns the text of what a task shows for the project of a list, with names, ids, resources and
// predecessors.
fn listed_text_of<V: ProofWatcher + SolveWatcher, L: Log>(
    alloc: Global,
    task: Task<'_>,
    file: &[u8],
    watcher: &mut V,
    log: &mut L,
) -> Result<Vec<u8>, CliFault>
    ensures made { IfOk result (λ text. IsListedText task.entry file.now text.items) }
    ensures refused { IfErr result (Refuses (IsLineOf task.entry file.now)) }
{
    let view = view_of(alloc, task, file, watcher, log)?;
    let ids = ids_for(alloc, task, file)?;
    let names = names_for(alloc, task, file)?;
    let links = links_for(alloc, task, &ids, file)?;
    Ok(named_text(alloc, view, &ids, &names, &links)?)
}

// Returns what a task shows for a file in a format.
fn formatted_text<V: ProofWatcher + SolveWatcher, L: Log>(
    alloc: Global,
    task: Task<'_>,
    format: Format,
    file: &[u8],
    watcher: &mut V,
    log: &mut L,
) -> Result<Vec<u8>, CliFault>
    ensures made { IfOk result (λ text. IsFormattedText format task.entry file.now text.items) }
    ensures refused { IfErr result (Refuses (IsLineOf task.entry file.now)) }
{
    let view = view_of(alloc, task, file, watcher, log)?;
    let ids = ids_for(alloc, task, file)?;
    let names = names_for(alloc, task, file)?;
    let links = links_for(alloc, task, &ids, file)?;
    Ok(text_in(alloc, format, view, &ids, &names, &links)?)
}

// Returns the text of a task for a file, which is no list, with these rows. The watcher is called
// during a search of `prove` or `solve`.
fn shown_text<V: ProofWatcher + SolveWatcher, L: Log>(
    alloc: Global,
    task: Task<'_>,
    rows: Rows,
    file: &[u8],
    watcher: &mut V,
    log: &mut L,
) -> Result<Vec<u8>, CliFault>
    ensures made { IfOk result (λ text. ShowsTask rows task.entry file.now text.items) }
    ensures refused { IfErr result (Refuses (IsLineOf task.entry file.now)) }
{
    match rows {
        Rows::Plain => text_of(alloc, task, file, watcher, log),
        Rows::Named => named_text_of(alloc, task, file, watcher, log),
        Rows::Listed => listed_text_of(alloc, task, file, watcher, log),
        Rows::In(format) => formatted_text(alloc, task, format, file, watcher, log),
    }
}

// Returns the project or the job shop of a task that reads lists too, if it is such a task.
fn list_subject(task: Task<'_>) -> Option<Subject<'_>>
    ensures { result ≡ spec.list_subject task.entry }
{
    match task {
        Task::Chart { subject, .. }
        | Task::Days { subject, .. }
        | Task::Check { subject, .. }
        | Task::Compare { subject, .. }
        | Task::CompareLists { subject, .. }
        | Task::Solve { subject, .. } => Some(subject),
        Task::Slack { capacities, .. } => Some(Subject::Project(capacities)),
        _ => None,
    }
}

// Returns the task on another project or job shop. The slacks stay those of a project.
fn with_subject<'a>(task: Task<'a>, subject: Subject<'a>) -> Task<'a>
    ensures { result ≡ spec.with_subject task.entry subject.entry }
{
    match task {
        Task::Chart { origin, .. } => Task::Chart { origin, subject },
        Task::Days {
            origin,
            dates,
            style,
            ..
        } => Task::Days {
            origin,
            dates,
            style,
            subject,
        },
        Task::Check { starts, .. } => Task::Check { starts, subject },
        Task::Compare { starts, .. } => Task::Compare { starts, subject },
        Task::Solve { conflicts, .. } => Task::Solve { conflicts, subject },
        _ => task,
    }
}

// Returns the rows for a list, which have its names, its resources and its predecessors.
fn list_rows(rows: Rows) -> Rows
    ensures { result ≡ spec.list_rows rows }
{
    match rows {
        Rows::Plain | Rows::Named | Rows::Listed => Rows::Listed,
        Rows::In(format) => Rows::In(format),
    }
}

// Returns the rows for a file of this kind: those for a list have its names.
fn rows_on(kind: Option<ListKind>, rows: Rows) -> Rows
    ensures { result ≡ spec.rows_on kind rows }
{
    match kind {
        Some(_) => list_rows(rows),
        None => rows,
    }
}

// Tests whether a task shows each step of a job shop.
fn has_steps(task: Task<'_>) -> bool
    ensures { result ≡ spec.has_steps task.entry }
{
    match task {
        Task::Chart { .. } | Task::Days { .. } | Task::Compare { .. } | Task::Solve { .. } => true,
        _ => false,
    }
}

// Tests whether a file is a list of orders.
fn are_orders(kind: Option<ListKind>) -> bool
    ensures { result ≡ spec.are_orders kind }
{
    match kind {
        Some(ListKind::Orders) => true,
        Some(ListKind::Activities) | None => false,
    }
}

/// Returns the text of a value with these rows, without other names.
pub(crate) fn rows_text(alloc: Global, rows: Rows, view: View) -> Result<Vec<u8>, AllocError>
    ensures { IfOk result (λ text. text.items ≡ spec.rows_text rows (view_of view)) }
{
    match rows {
        Rows::In(format) => text_in(alloc, format, view, &[], &[], &[]),
        Rows::Plain | Rows::Named | Rows::Listed => plain_text(alloc, view),
    }
}

// Returns the text of a task for the job shop of a list of orders.
fn orders_text<V: ProofWatcher + SolveWatcher, L: Log>(
    alloc: Global,
    task: Task<'_>,
    of: Subject<'_>,
    rows: Rows,
    file: &[u8],
    watcher: &mut V,
    log: &mut L,
) -> Result<Vec<u8>, CliFault>
    ensures made { IfOk result (λ text.
        spec.ShowsOrders rows task.entry of.entry file.now text.items) }
    ensures refused { IfErr result (Refuses (IsLineOf task.entry file.now)) }
{
    let view = view_of(alloc, task, file, watcher, log)?;
    let orders = names_for(alloc, task, file)?;
    let machines = names_of_lines(alloc, of, file)?;
    match subject_shop(alloc, of, file)? {
        Some(shop) => Ok(order_text(alloc, rows, &shop, &orders, &machines, view)?),
        None => Ok(order_rows_text(alloc, rows, &machines, view)?),
    }
}

// Returns the text of a task for the project or the job shop in a file of a kind. It isn't the check
// of a list.
fn unchecked_text<V: ProofWatcher + SolveWatcher, L: Log>(
    alloc: Global,
    kind: Option<ListKind>,
    task: Task<'_>,
    of: Subject<'_>,
    rows: Rows,
    file: &[u8],
    watcher: &mut V,
    log: &mut L,
) -> Result<Vec<u8>, CliFault>
    ensures made { IfOk result (λ text.
        spec.ShowsChecked None kind rows task.entry of.entry file.now text.items) }
    ensures refused { IfErr result (Refuses (IsLineOf task.entry file.now)) }
{
    let rows = rows_on(kind, rows);
    if has_steps(task) && are_orders(kind) {
        orders_text(alloc, task, of, rows, file, watcher, log)
    } else {
        shown_text(alloc, task, rows, file, watcher, log)
    }
}

// Returns the text of a task for the project or the job shop in a file of a kind.
fn kind_text<V: ProofWatcher + SolveWatcher, L: Log>(
    alloc: Global,
    kind: Option<ListKind>,
    task: Task<'_>,
    of: Subject<'_>,
    rows: Rows,
    file: &[u8],
    watcher: &mut V,
    log: &mut L,
) -> Result<Vec<u8>, CliFault>
    ensures made { IfOk result (λ text.
        spec.ShowsKind kind rows task.entry of.entry file.now text.items) }
    ensures refused { IfErr result (Refuses (IsLineOf task.entry file.now)) }
{
    match list_check(kind, task) {
        Some((starts, subject)) => list_check_text(alloc, rows, starts, subject, file),
        None => unchecked_text(alloc, kind, task, of, rows, file, watcher, log),
    }
}

// Returns the text of a task that reads lists too, for a file with this project or job shop.
fn listed_text<V: ProofWatcher + SolveWatcher, L: Log>(
    alloc: Global,
    task: Task<'_>,
    of: Subject<'_>,
    rows: Rows,
    file: &[u8],
    watcher: &mut V,
    log: &mut L,
) -> Result<Vec<u8>, CliFault>
    ensures made { IfOk result (λ text.
        spec.ShowsOn (Some of.entry) rows task.entry file.now text.items) }
    ensures refused { IfErr result (Refuses
        (spec.RefusesOn (Some of.entry) task.entry file.now)) }
{
    let read = readable(alloc, of, file)?;
    let task = with_subject(task, read.subject);
    let text = read.text(file);
    kind_text(
        alloc,
        read.kind,
        task,
        read.subject,
        rows,
        text,
        watcher,
        log,
    )
}

// Returns the text of a task for the bytes of a file, with this project or job shop if the task
// reads lists too.
fn text_on<V: ProofWatcher + SolveWatcher, L: Log>(
    alloc: Global,
    task: Task<'_>,
    of: Option<Subject<'_>>,
    rows: Rows,
    file: &[u8],
    watcher: &mut V,
    log: &mut L,
) -> Result<Vec<u8>, CliFault>
    ensures made { IfOk result (λ text.
        spec.ShowsOn of.entry rows task.entry file.now text.items) }
    ensures refused { IfErr result (Refuses (spec.RefusesOn of.entry task.entry file.now)) }
{
    match of {
        Some(of) => listed_text(alloc, task, of, rows, file, watcher, log),
        None => shown_text(alloc, task, rows, file, watcher, log),
    }
}

/// Returns the text of a task for the bytes of a file, with these rows. The watcher is called during
/// a search of `prove` or `solve`.
pub(crate) fn read_text<V: ProofWatcher + SolveWatcher, L: Log>(
    alloc: Global,
    task: Task<'_>,
    rows: Rows,
    file: &[u8],
    watcher: &mut V,
    log: &mut L,
) -> Result<Vec<u8>, CliFault>
    ensures made { IfOk result (λ text. spec.ShowsRead rows task.entry file.now text.items) }
    ensures refused { IfErr result (Refuses (spec.RefusesRead task.entry file.now)) }
{
    let of = list_subject(task);
    text_on(alloc, task, of, rows, file, watcher, log)
}
