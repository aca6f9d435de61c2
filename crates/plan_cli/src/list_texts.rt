//! `plan solve` and `plan days` with `--format list`: the list of a file with the times of its
//! activities.

ghost use Rattle.std.specs.Prelude.{◌≡◌, ◌⊎◌, [], ◌≤◌, All, EachIndex, IfOk, IfErr};
ghost use Rattle.std.specs.Prelude.{length, map, slice_index};
ghost use Rattle.plan_gantt.specs.Limits.{latest_start};
ghost use Rattle.plan_list_back.specs.ListBack.{IsReadAs, times_of};
ghost use Rattle.plan_net.specs.Network as networks;
ghost use Rattle.plan_profile.specs.Usage.{IsInTime};
ghost use Rattle.plan_psplib.specs.Plain.{longest_text};
ghost use Rattle.plan_report.specs.Slack.{AreSlacks};
ghost use Rattle.plan_sgs.specs.Instances.{problem_of};
ghost use Rattle.plan_spreadsheet.specs.Options.{options_of};
ghost use Rattle.plan_table.specs.ProjectText.{project_text as project};
ghost use Rattle.plan_errors.specs.Output.{Refuses};
ghost use Rattle.plan_documents.specs.Details.{NamesVerdict};
ghost use Rattle.plan_documents.specs.Documents.{IsOfSubject, RefusesSubject};
ghost use Rattle.plan_documents.specs.ListOptions.{RefusesOfPrepared};
ghost use Rattle.plan_documents.specs.Lists.{RefusesReading};
ghost use Rattle.plan_cli.specs.DaysRun.{TellsBeyond};
ghost use Rattle.plan_cli.specs.ListTimes.{AreTimes, HasDayBeyond, calendar_in};
ghost use Rattle.plan_cli.specs.ListRun as spec;

use crate::calendar_refusals::days_refusal;
use crate::calendars::{Dates, calendar_of};
use crate::list_times::list_times;
use crate::origins::Origin;
use crate::schedules::schedule_from;
use crate::slacks::slack_refusal;
use crate::watchers::{Log, ProofWatcher, SolveWatcher};
use plan_documents::{
    Options, Plan, Subject, plan_of, prepare, read_document, readable, with_names,
};
use plan_errors::{About, CliFault, Code, refuse_words};
use plan_gantt::Calendar;
use plan_list_back::{ListBackFault, Times, list_back, list_table};
use plan_psplib::LONGEST_TEXT;
use plan_report::schedule_slack;
use plan_sgs::Instance;
use plan_table::{ListKind, Table, TextFault, project_text};
use std::alloc::Global;

// Returns the error of a file that is no list of activities.
fn no_list_refusal(alloc: Global) -> CliFault
    ensures { Refuses spec.TellsNoList result }
{
    refuse_words(alloc, Code::NoDurations, About::List, "no column duration")
}

// Returns the error of a list that is too long with its times.
fn long_refusal(alloc: Global) -> CliFault
    ensures { Refuses spec.TellsNoList result }
{
    refuse_words(alloc, Code::LongTable, About::List, "too long")
}

// Returns the error of a list that isn't given back.
fn back_refusal(alloc: Global, fault: ListBackFault) -> CliFault
    ensures { Refuses spec.TellsNoList result }
{
    match fault {
        ListBackFault::Memory => CliFault::Memory,
        ListBackFault::NoList => no_list_refusal(alloc),
        ListBackFault::TooLong => long_refusal(alloc),
        ListBackFault::Changed => {
            let words = "column start, finish or slack twice";
            refuse_words(alloc, Code::ColumnTwice, About::List, words)
        }
    }
}

// Returns the options of a list, or none.
fn options_in<'a>(options: Option<Options<'a>>) -> Options<'a>
    ensures { options_of result ≡ spec.options_in options.entry }
{
    match options {
        Some(options) => options,
        None => Options {
            renames: &[],
            ignored: &[],
            unit: None,
        },
    }
}

// Returns the slacks of starts.
fn slacks_in(alloc: Global, instance: &Instance, starts: &[u64]) -> Result<Vec<u64>, CliFault>
    requires whole { length starts.now ≡ networks.count_of instance.now.project.network }
    requires limit { All IsInTime starts.now }
    ensures slacks { IfOk result (λ slacks.
        AreSlacks (problem_of instance.now) starts.now slacks.items) }
    ensures refused { IfErr result (Refuses
        (spec.TellsNoSlackIn (Plan.Project instance.now []) starts.now)) }
{
    match schedule_slack(alloc, instance, starts) {
        Ok(slacks) => Ok(slacks),
        Err(fault) => Err(slack_refusal(alloc, fault)),
    }
}

// Returns the calendar of the dates, if there are any.
fn calendar_if(alloc: Global, dates: Option<Dates<'_>>) -> Result<Option<Calendar>, CliFault>
    ensures made { IfOk result (spec.IsCalendarOf dates.entry) }
    ensures refused { IfErr result (Refuses (spec.TellsNoDates dates.entry)) }
{
    match dates {
        Some(dates) => Ok(Some(calendar_of(alloc, dates)?)),
        None => Ok(None),
    }
}

// Returns the times of the activities of a table, or the error of a day after the last date.
fn dated_times<'a>(
    alloc: Global,
    calendar: Option<&Calendar>,
    table: &'a Table,
    starts: &[u64],
    slacks: &[u64],
) -> Result<Vec<Times<'a>>, CliFault>
    requires { EachIndex starts.now (λ k. slice_index starts.now k ≤ latest_start) }
    ensures times { IfOk result (λ all. AreTimes (calendar_in calendar.entry) table.now
        starts.now slacks.now (map times_of all.items)) }
    ensures refused { IfErr result (Refuses (TellsBeyond
        (HasDayBeyond (calendar_in calendar.entry) table.now starts.now))) }
{
    list_times(alloc, calendar, table, starts, slacks).map_err(|fault| days_refusal(alloc, fault))
}

// Returns the times of the activities of a table in a plan's schedule. A job shop has no
// activities.
fn plan_times<'a, V: ProofWatcher + SolveWatcher, L: Log>(
    alloc: Global,
    origin: Origin<'_>,
    dates: Option<Dates<'_>>,
    table: &'a Table,
    plan: &Plan<'_>,
    watcher: &mut V,
    log: &mut L,
) -> Result<Vec<Times<'a>>, CliFault>
    ensures made { IfOk result (λ all. spec.AreTimesIn origin.entry dates.entry table.now plan.now
        (map times_of all.items)) }
    ensures refused { IfErr result (Refuses
        (spec.TellsNoTimes origin.entry dates.entry table.now plan.now)) }
{
    let Plan::Project(instance, _) = plan else {
        return Err(no_list_refusal(alloc));
    };
    let made = schedule_from(alloc, origin, plan, watcher, log)?;
    let starts = &made.schedule.starts;
    let slacks = slacks_in(alloc, instance, starts)?;
    let calendar = calendar_if(alloc, dates)?;
    let all = dated_times(alloc, calendar.as_ref(), table, starts, &slacks)?;
    Ok(all)
}

// Returns the same. Its error has the names in the project file.
#[tactic(auto, using(plan_documents::proofs::SentenceLemmas::detailed_refuses))]
fn named_times<'a, V: ProofWatcher + SolveWatcher, L: Log>(
    alloc: Global,
    origin: Origin<'_>,
    dates: Option<Dates<'_>>,
    subject: Subject<'_>,
    table: &'a Table,
    file: &[u8],
    plan: &Plan<'_>,
    watcher: &mut V,
    log: &mut L,
) -> Result<Vec<Times<'a>>, CliFault>
    ensures made { IfOk result (λ all. spec.AreTimesIn origin.entry dates.entry table.now plan.now
        (map times_of all.items)) }
    ensures refused { IfErr result (Refuses
        (spec.TellsNoTimes origin.entry dates.entry table.now plan.now)) }
    ensures names { IfErr result (NamesVerdict subject.entry file.now) }
{
    match plan_times(alloc, origin, dates, table, plan, watcher, log) {
        Ok(times) => Ok(times),
        Err(fault) => Err(with_names(alloc, subject, file, fault)),
    }
}

// Returns the times of the activities of a table, of which a text is the project file.
fn table_times<'a, V: ProofWatcher + SolveWatcher, L: Log>(
    alloc: Global,
    origin: Origin<'_>,
    dates: Option<Dates<'_>>,
    subject: Subject<'_>,
    table: &'a Table,
    file: &[u8],
    watcher: &mut V,
    log: &mut L,
) -> Result<Vec<Times<'a>>, CliFault>
    ensures made { IfOk result (λ all. IsOfSubject subject.entry
        (spec.AreTimesIn origin.entry dates.entry table.now) file.now (map times_of all.items)) }
    ensures refused { IfErr result (Refuses (RefusesSubject subject.entry
        (spec.TellsNoTimes origin.entry dates.entry table.now) file.now)) }
{
    let document = read_document(alloc, subject, file)?;
    let plan = plan_of(alloc, &document, file)?;
    named_times(
        alloc, origin, dates, subject, table, file, &plan, watcher, log,
    )
}

// Returns the list of a file that is read as a table, with the times of its activities.
fn table_list<V: ProofWatcher + SolveWatcher, L: Log>(
    alloc: Global,
    origin: Origin<'_>,
    dates: Option<Dates<'_>>,
    subject: Subject<'_>,
    options: &Options<'_>,
    table: &Table,
    file: &[u8],
    watcher: &mut V,
    log: &mut L,
) -> Result<Vec<u8>, CliFault>
    requires short { length file.now ≤ longest_text }
    requires read { IsReadAs (options_of options.now) [] file.now table.now }
    ensures made { IfOk result (λ text. spec.IsTimed origin.entry dates.entry subject.entry
        (options_of options.now) file.now table.now text.items) }
    ensures refused { IfErr result (Refuses (λ line. spec.TellsNoList line
        ⊎ RefusesSubject subject.entry (spec.TellsNoTimes origin.entry dates.entry table.now)
        (project table.now) line)) }
{
    let text = match project_text(alloc, table) {
        Ok(text) => text,
        Err(TextFault::Memory) => return Err(CliFault::Memory),
        Err(TextFault::TooLong) => return Err(long_refusal(alloc)),
    };
    let made = text.as_bytes();
    let times = table_times(alloc, origin, dates, subject, table, made, watcher, log)?;
    match list_back(alloc, options, &[], file, &times) {
        Ok(text) => Ok(text),
        Err(fault) => Err(back_refusal(alloc, fault)),
    }
}

// Checks that a file is a list of activities, as other commands read it.
fn check_list(
    alloc: Global,
    subject: Subject<'_>,
    options: Option<Options<'_>>,
    file: &[u8],
) -> Result<(), CliFault>
    ensures { IfErr result (Refuses (λ line. spec.TellsNoList line
        ⊎ RefusesOfPrepared options.entry [] (RefusesReading subject.entry) file.now line)) }
{
    let prepared = prepare(alloc, options, &[], file)?;
    let read = readable(alloc, subject, prepared.text(file))?;
    match read.kind {
        Some(ListKind::Activities) => Ok(()),
        Some(ListKind::Orders) | None => Err(no_list_refusal(alloc)),
    }
}

// Returns the list of a file that isn't too long, with the times of its activities.
fn short_list<V: ProofWatcher + SolveWatcher, L: Log>(
    alloc: Global,
    origin: Origin<'_>,
    dates: Option<Dates<'_>>,
    subject: Subject<'_>,
    options: Option<Options<'_>>,
    file: &[u8],
    watcher: &mut V,
    log: &mut L,
) -> Result<Vec<u8>, CliFault>
    requires { length file.now ≤ longest_text }
    ensures made { IfOk result (λ text. spec.IsTimedList origin.entry dates.entry subject.entry
        options.entry file.now text.items) }
    ensures refused { IfErr result (Refuses (λ line. spec.TellsNoList line
        ⊎ spec.RefusesShort origin.entry dates.entry subject.entry options.entry file.now line)) }
{
    check_list(alloc, subject, options, file)?;
    let options = options_in(options);
    let table = match list_table(alloc, &options, &[], file) {
        Ok(table) => table,
        Err(fault) => return Err(back_refusal(alloc, fault)),
    };
    table_list(
        alloc, origin, dates, subject, &options, &table, file, watcher, log,
    )
}

/// Returns the list in a file with the times of its activities in the schedule of its project. With
/// dates the start and the finish are working days. Errors: those of [`readable`] with the options,
/// `T3` (no list of activities), those of the schedule and of the dates, `S9`, and `T1` and `T4` (a
/// list that can't have its times).
pub(crate) fn timed_list<V: ProofWatcher + SolveWatcher, L: Log>(
    alloc: Global,
    origin: Origin<'_>,
    dates: Option<Dates<'_>>,
    subject: Subject<'_>,
    options: Option<Options<'_>>,
    file: &[u8],
    watcher: &mut V,
    log: &mut L,
) -> Result<Vec<u8>, CliFault>
    ensures made { IfOk result (λ text. spec.IsTimedList origin.entry dates.entry subject.entry
        options.entry file.now text.items) }
    ensures refused { IfErr result (Refuses (spec.RefusesTimedList origin.entry dates.entry
        subject.entry options.entry file.now)) }
{
    if file.len() <= LONGEST_TEXT {
        short_list(alloc, origin, dates, subject, options, file, watcher, log)
    } else {
        Err(long_refusal(alloc))
    }
}
