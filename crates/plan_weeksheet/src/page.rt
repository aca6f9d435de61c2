//! The page of rectangles.

ghost use Rattle.std.specs.Prelude.{◌≡◌, ◌≤◌, ◌++◌, true, map, EachIndex, IfErr, IfOk, IsErrOf};
ghost use Rattle.std.specs.Prelude.{length, slice_index, string_bytes};
ghost use Rattle.plan_errors.specs.Codes.{name_of};
ghost use Rattle.plan_errors.specs.Output.{Refuses};
ghost use Rattle.plan_errors.specs.Parts.{parts_text};
ghost use Rattle.plan_gantt.specs.Limits.{latest_start};
ghost use Rattle.plan_net.specs.Network as networks;
ghost use Rattle.plan_sgs.specs.Instances.{planned, problem_of};
ghost use Rattle.plan_sgs.specs.Problem.{NeedsFit};
ghost use Rattle.plan_sheet.specs.Names as named;
ghost use Rattle.plan_sheet.specs.Layouts.{activities, count_of};
ghost use Rattle.plan_table.specs.Jobs.{project_of};
ghost use Rattle.plan_weeksheet.specs.Drawn as drawn;
ghost use Rattle.plan_weeksheet.specs.Pages as spec;
ghost use Rattle.plan_weeksheet.specs.Rectangles.{rectangle_of};

use crate::drawn::{drawn_capacities, drawn_starts, list_of, project_in};
use crate::limits::is_within;
use crate::rectangle::Rectangle;
use plan_calendar::Calendar;
use plan_errors::{About, CliFault, Code, Key, Part, refuse, refuse_words};
use plan_gantt::DaysFault;
use plan_psplib::ProjectDoc;
use plan_sgs::Instance;
use plan_sheet::{DayStyle, Heading, Layout, Margins, SheetNames, dated_report, report};
use plan_table::TextFault;
use std::alloc::{AllocError, Global};

/// The calendar of a page, and the style of its days.
#[derive(Clone, Copy, Drop)]
pub struct PageDays<'a> {
    pub calendar: &'a Calendar,
    pub style: &'a DayStyle,
}

// Returns the report of a project, whose needs fit its capacities, at its starts.
fn page(
    alloc: Global,
    heading: Heading<'_>,
    days: Option<PageDays<'_>>,
    names: &SheetNames<'_>,
    instance: &Instance<'_>,
    starts: &[u64],
) -> Result<String, DaysFault>
    requires starts { length starts.now ≡ count_of (activities instance.now) }
    requires limit { EachIndex starts.now (λ k. slice_index starts.now k ≤ latest_start) }
    ensures page { IfOk result (λ text.
        spec.IsPage heading.entry.title.now heading.entry.lower days.entry
        (named.names_of names.now) instance.now starts.now (string_bytes text)) }
    ensures beyond { IsErrOf result DaysFault.BeyondCalendar →
        spec.IsPageBeyond days.entry instance.now starts.now }
{
    let margins = Margins {
        floats: &[],
        slacks: &[],
    };
    let layout = Layout::Activities(instance);
    match days {
        Some(on) => {
            dated_report(
                alloc,
                heading,
                names,
                layout,
                starts,
                &margins,
                on.style,
                on.calendar,
            )
        }
        None => Ok(report(alloc, heading, names, layout, starts, &margins)?),
    }
}

// Returns the instance of a project whose needs fit its capacities.
#[tactic(auto, using(plan_sgs::proofs::OnceLemmas::fit_not_refused))]
fn instance_of<'a>(project: &'a ProjectDoc, capacities: &'a [u64]) -> Instance<'a>
    requires whole { length capacities.now ≡ length project.now.available }
    requires fit { NeedsFit (problem_of (planned project.now capacities.now)) }
    ensures { result ≡ planned project.now capacities.now }
{
    match Instance::of_project(project, capacities) {
        Ok(instance) => instance,
        Err(_) => unreachable!(),
    }
}

// Returns the parts of the error of a limit. Line 0 stands for the whole list.
fn limit_parts(alloc: Global) -> Result<Vec<Part>, AllocError>
    ensures { IfOk result (λ list.
        name_of Code.TableLimit ++ parts_text list.items ≡ spec.limit_line) }
{
    Ok(Vec::from_array(alloc, [Part::Words("limit"), Part::Number(Key::Line, 0)])?)
}

// Returns the error of a list that is above a limit.
fn above_limit(alloc: Global) -> CliFault
    ensures { Refuses (λ line. line ≡ spec.limit_line) result }
{
    refuse(Code::TableLimit, About::List, limit_parts(alloc))
}

// Returns the error of the project file of a list.
fn text_refusal(alloc: Global, fault: TextFault) -> CliFault
    ensures { Refuses (spec.TellsText fault) result }
{
    match fault {
        TextFault::Memory => CliFault::Memory,
        TextFault::TooLong => above_limit(alloc),
    }
}

// Returns the error of a page.
fn days_refusal(alloc: Global, fault: DaysFault) -> CliFault
    ensures { Refuses (spec.TellsDays fault) result }
{
    match fault {
        DaysFault::NoMemory => CliFault::Memory,
        DaysFault::BeyondCalendar => {
            refuse_words(alloc, Code::BeyondCalendar, About::Plan, "beyond calendar")
        }
    }
}

// Returns the project of rectangles that are within the limits.
#[tactic(auto, using(crate::proofs::PageLemmas::long_told))]
fn project_of_all(
    alloc: Global,
    capacities: &[u64],
    rectangles: &[Rectangle<'_>],
) -> Result<ProjectDoc, CliFault>
    requires few { drawn.are_few capacities.now (map rectangle_of rectangles.now) ≡ true }
    requires small { drawn.are_small capacities.now (map rectangle_of rectangles.now) ≡ true }
    ensures project { IfOk result (λ doc.
        doc ≡ project_of (drawn.list_of capacities.now (map rectangle_of rectangles.now))) }
    ensures refused { IfErr result
        (Refuses (spec.TellsLong capacities.now (map rectangle_of rectangles.now))) }
{
    let table = list_of(alloc, capacities, rectangles)?;
    match project_in(alloc, &table) {
        Ok(project) => Ok(project),
        Err(fault) => Err(text_refusal(alloc, fault)),
    }
}

// Returns the page of a project whose needs fit its capacities, or the error of a day that is too
// late.
#[tactic(auto, using(crate::proofs::PageLemmas::beyond_told))]
fn page_text(
    alloc: Global,
    heading: Heading<'_>,
    days: Option<PageDays<'_>>,
    names: &SheetNames<'_>,
    instance: &Instance<'_>,
    starts: &[u64],
) -> Result<String, CliFault>
    requires starts { length starts.now ≡ count_of (activities instance.now) }
    requires limit { EachIndex starts.now (λ k. slice_index starts.now k ≤ latest_start) }
    ensures page { IfOk result (λ text.
        spec.IsPage heading.entry.title.now heading.entry.lower days.entry
        (named.names_of names.now) instance.now starts.now (string_bytes text)) }
    ensures refused { IfErr result
        (Refuses (spec.TellsBeyond days.entry instance.now starts.now)) }
{
    match page(alloc, heading, days, names, instance, starts) {
        Ok(text) => Ok(text),
        Err(fault) => Err(days_refusal(alloc, fault)),
    }
}

// Returns the page of a project whose needs fit its capacities.
fn project_page(
    alloc: Global,
    heading: Heading<'_>,
    days: Option<PageDays<'_>>,
    names: &SheetNames<'_>,
    project: &ProjectDoc,
    available: &[u64],
    starts: &[u64],
) -> Result<String, CliFault>
    requires whole { length available.now ≡ length project.now.available }
    requires fit { NeedsFit (problem_of (planned project.now available.now)) }
    requires starts { length starts.now ≡ networks.count_of project.now.network }
    requires limit { EachIndex starts.now (λ k. slice_index starts.now k ≤ latest_start) }
    ensures page { IfOk result (λ text.
        spec.IsPage heading.entry.title.now heading.entry.lower days.entry
        (named.names_of names.now) (planned project.now available.now) starts.now
        (string_bytes text)) }
    ensures refused { IfErr result
        (Refuses (spec.TellsBeyond days.entry (planned project.now available.now) starts.now)) }
{
    let instance = instance_of(project, available);
    page_text(alloc, heading, days, names, &instance, starts)
}

// Returns the page of rectangles that are within the limits.
#[tactic(auto, using(crate::proofs::PageLemmas::long_hidden))]
fn page_within(
    alloc: Global,
    heading: Heading<'_>,
    days: Option<PageDays<'_>>,
    names: &SheetNames<'_>,
    capacities: &[u64],
    rectangles: &[Rectangle<'_>],
    makespan: u64,
) -> Result<String, CliFault>
    requires { drawn.is_within capacities.now (map rectangle_of rectangles.now) makespan ≡ true }
    ensures page { IfOk result (λ text.
        spec.IsPageOf heading.entry.title.now heading.entry.lower days.entry
        (named.names_of names.now) capacities.now (map rectangle_of rectangles.now) makespan
        (string_bytes text)) }
    ensures refused { IfErr result (Refuses (spec.TellsNoPage days.entry capacities.now
        (map rectangle_of rectangles.now) makespan)) }
{
    let project = project_of_all(alloc, capacities, rectangles)?;
    let available = drawn_capacities(alloc, capacities)?;
    let starts = drawn_starts(alloc, rectangles, makespan)?;
    project_page(alloc, heading, days, names, &project, &available, &starts)
}

/// Returns the page of rectangles, with these capacities of their resources, for a plan with this
/// makespan. Errors: `T12` (above a limit of a project file), `G3` (a day after 9999-12-31).
#[tactic(auto, using(crate::proofs::PageLemmas::above_told))]
pub(crate) fn page_of(
    alloc: Global,
    heading: Heading<'_>,
    days: Option<PageDays<'_>>,
    names: &SheetNames<'_>,
    capacities: &[u64],
    rectangles: &[Rectangle<'_>],
    makespan: u64,
) -> Result<String, CliFault>
    ensures page { IfOk result (λ text.
        spec.IsPageOf heading.entry.title.now heading.entry.lower days.entry
        (named.names_of names.now) capacities.now (map rectangle_of rectangles.now) makespan
        (string_bytes text)) }
    ensures refused { IfErr result (Refuses (spec.TellsNoPage days.entry capacities.now
        (map rectangle_of rectangles.now) makespan)) }
{
    if !is_within(capacities, rectangles, makespan) {
        return Err(above_limit(alloc));
    }
    page_within(
        alloc, heading, days, names, capacities, rectangles, makespan,
    )
}
