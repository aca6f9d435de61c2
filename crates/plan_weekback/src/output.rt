//! The planner's own list with the columns of a plan.

ghost use Rattle.std.specs.Prelude.{IfErr, IfOk, map};
ghost use Rattle.plan_errors.specs.Output.{Refuses};
ghost use Rattle.plan_solve.specs.Progress.{HearsNothing};
ghost use Rattle.plan_weekback.specs.Entries.{days_in, entry_of};
ghost use Rattle.plan_weekback.specs.Outputs as spec;
ghost use Rattle.plan_weekback.specs.Sameness.{MeansList};
ghost use Rattle.plan_weekview.specs.DaysOutputs.{TellsDays};

use crate::back::{check_same, list_with};
use crate::entries::Entry;
use crate::plans::plan_entries;
use crate::readings::{WeekReading, week_text};
use plan_calendar::Calendar;
use plan_errors::{About, CliFault, Code, refuse_words};
use plan_gantt::DaysFault;
use plan_solve::Watcher;
use plan_weekfile::{WeekOrder, dates_refusal, listed_week, plan_of};
use plan_weeklist::{ListedWeek, WeekError, read_week_list};
use plan_weeks::WeekPlan;
use std::alloc::Global;

// Returns the error of the days of a plan.
fn days_refusal(alloc: Global, fault: DaysFault) -> CliFault
    ensures { Refuses (TellsDays fault) result }
{
    match fault {
        DaysFault::NoMemory => CliFault::Memory,
        DaysFault::BeyondCalendar => {
            refuse_words(alloc, Code::BeyondCalendar, About::Plan, "beyond calendar")
        }
    }
}

// Returns the texts of a plan of the week of a list.
#[tactic(auto, using(crate::proofs::OutputLemmas::dates_told))]
fn texts_of(
    alloc: Global,
    today: Option<u32>,
    calendar: Option<&Calendar>,
    listed: &ListedWeek,
    plan: &WeekPlan,
    text: &[u8],
) -> Result<Vec<Entry>, CliFault>
    ensures texts { IfOk result (λ v. spec.AreTextsOf (days_in calendar.entry) today text.now
        listed.now plan.now (map entry_of v.items)) }
    ensures refused { IfErr result (Refuses (spec.TellsNoTexts (days_in calendar.entry) today
        text.now listed.now plan.now)) }
{
    let list = match read_week_list(alloc, &[], today, text) {
        Ok(list) => list,
        Err(WeekError::Memory) => return Err(CliFault::Memory),
        Err(WeekError::Fault(fault)) => return Err(dates_refusal(alloc, &fault)),
    };
    match plan_entries(alloc, calendar, &list.rows.rows, listed, plan) {
        Ok(entries) => Ok(entries),
        Err(fault) => Err(days_refusal(alloc, fault)),
    }
}

// Returns the list of a file with the columns of a plan of its week. `text` is read in place of the
// file.
#[tactic(auto, using(crate::proofs::OutputLemmas::texts_untold))]
fn list_for(
    alloc: Global,
    order: &WeekOrder<'_>,
    reading: &WeekReading<'_>,
    calendar: Option<&Calendar>,
    listed: &ListedWeek,
    plan: &WeekPlan,
    text: &[u8],
    file: &[u8],
) -> Result<Vec<u8>, CliFault>
    ensures shown { IfOk result (λ made. spec.ShowsPlan (days_in calendar.entry)
        order.now.today text.now listed.now plan.now file.now made.items) }
    ensures same { IfOk result (λ made. MeansList order.now.capacities.now order.now.today
        reading.now made.items listed.now) }
    ensures refused { IfErr result (Refuses (spec.TellsNoList order.now reading.now
        (days_in calendar.entry) text.now listed.now plan.now file.now)) }
{
    let entries = texts_of(alloc, order.today, calendar, listed, plan, text)?;
    let made = list_with(alloc, plan.lateness.is_some(), &entries, file)?;
    check_same(alloc, order, reading, listed, &made)?;
    Ok(made)
}

/// Returns the list of a file with the columns of a plan: `start`, `finish`, and `late` for the
/// goal of the tardiness. The starts and the finishes are instants, or with a calendar days.
///
/// The file is read with `reading`. If the returned list is read again, it gives the same table and
/// the same week. The watcher is called during the searches, and can end them.
/// Errors: those of [`week_text`] and [`plan_weekfile::week_output`], `G3` (a day after
/// 9999-12-31), `T1` and `T4` (a list that can't have the columns), `T3` (no rows).
#[tactic(auto, using(crate::proofs::OutputLemmas::text_refused, crate::proofs::OutputLemmas::week_refused, crate::proofs::OutputLemmas::plan_refused, crate::proofs::OutputLemmas::list_refused, crate::proofs::OutputLemmas::list_shown))]
pub fn week_back_output<W: Watcher>(
    alloc: Global,
    order: &WeekOrder<'_>,
    reading: &WeekReading<'_>,
    calendar: Option<&Calendar>,
    watcher: &mut W,
    file: &[u8],
) -> Result<Vec<u8>, CliFault>
    ensures shown { IfOk result (λ made. spec.ShowsWeekBack order.now reading.now
        (days_in calendar.entry) file.now made.items) }
    ensures refused { IfErr result (Refuses (spec.RefusesWeekBack order.now reading.now
        (days_in calendar.entry) file.now)) }
    ensures told { HearsNothing (W.was_told watcher.old) (W.was_told watcher.new) }
{
    let read = week_text(alloc, reading, file)?;
    let own = read.text(file);
    let listed = listed_week(alloc, order.capacities, order.today, own)?;
    let plan = plan_of(alloc, order, &listed, watcher)?;
    let made = list_for(alloc, order, reading, calendar, &listed, &plan, own, file)?;
    Ok(made)
}
