//! The commands on the places, the calendar and the arcs of a plan.

ghost use Rattle.std.specs.Prelude.{◌≡◌, ℕ, IfOk, IfErr, option_map};
ghost use Rattle.plan_rows.specs.declared.fault.BookFault.TheVariants.{Store};
ghost use Rattle.plan_rows.specs.World as world;
ghost use Rattle.plan_desk.specs.FoundFiles.{RowHasPlaces, IsProjectOfRow};
ghost use Rattle.plan_desk.specs.PlanRoutes as routes;
ghost use Rattle.plan_desk.specs.BookSteps.{Decides};

use crate::answers::{bind_answer, calendar_answer, lag_answer};
use crate::bodies::{bind_body, calendar_body, lag_body};
use crate::change::{Change, Decision, without_change};
use crate::document_refs::ProjectRef;
use crate::files::Files;
use crate::lookup::find_plan;
use crate::plan_files::{read_project_file, read_shop_file};
use crate::reply::{bad_body, bad_calendar, not_found};
use crate::route_refusals::{bind_refusal, lag_refusal};
use plan_gantt::{Calendar, calendar_fault_text};
use plan_rows::{Book, BookFault, Kind, PlanKind, PlanRow};
use std::alloc::Global;

// The number of places of a plan: the resources of a project, the machines of a shop.
fn places_of(alloc: Global, files: &mut Files, plan: &PlanRow) -> Result<u64, BookFault>
    ensures said { IfOk result (RowHasPlaces plan.now) }
    ensures blamed { IfErr result (λ fault. fault ≡ Store
        → (count : ℕ) → RowHasPlaces plan.now count → ⊥) }
{
    match plan.kind {
        PlanKind::Project => {
            let project = read_project_file(alloc, files, &plan.body)?;
            Ok(project.avail().len() as u64)
        }
        PlanKind::Shop => {
            let shop = read_shop_file(alloc, files, plan.name.as_str(), &plan.body)?;
            Ok(shop.machines() as u64)
        }
    }
}

// The project in the file of a plan, without the lags of the desk. None for a shop.
fn file_project<'f>(
    alloc: Global,
    files: &'f mut Files,
    plan: &PlanRow,
) -> Result<Option<ProjectRef<'f>>, BookFault>
    ensures said { IfOk result (IsProjectOfRow plan.now) }
    ensures blamed { IfErr result (λ fault. fault ≡ Store
        → (count : ℕ) → RowHasPlaces plan.now count → ⊥) }
{
    match plan.kind {
        PlanKind::Project => Ok(Some(read_project_file(alloc, files, &plan.body)?)),
        PlanKind::Shop => Ok(None),
    }
}

// The kind of code that a plan's places can be bound to.
fn code_kind(kind: PlanKind) -> Kind
    ensures { result ≡ world.takes kind }
{
    match kind {
        PlanKind::Project => Kind::Crew,
        PlanKind::Shop => Kind::Machine,
    }
}

// The kind in a row of a published code.
fn kind_alone(row: Option<(Kind, u64)>) -> Option<Kind>
    ensures { result ≡ option_map (λ row. row.0) row }
{
    row.map(|row| row.0)
}

// Binds a published code to a place of a plan.
pub(crate) fn bind_code<B: Book>(
    book: &mut B,
    alloc: Global,
    files: &mut Files,
    desk: &str,
    number: &str,
    body: &[u8],
) -> Result<Decision<'static>, BookFault>
    ensures { Decides B.shelf book.old book.new desk.now desk.now
        (λ v. routes.Binds v number.now body.now) result }
{
    let Some(found) = find_plan(book, desk, number)? else {
        return Ok(without_change(not_found()));
    };
    let count = places_of(alloc, files, &found.plan)?;
    let Some(body) = bind_body(alloc, found.plan.kind, count, body)? else {
        return Ok(without_change(bad_body()));
    };
    let row = book.capacity(body.code.as_str())?;
    if let Some(refusal) = bind_refusal(kind_alone(row), code_kind(found.plan.kind)) {
        return Ok(without_change(refusal));
    }
    Ok(Decision {
        reply: bind_answer(alloc, &body)?,
        change: Change::BindPlace {
            n: found.n,
            place: body.place,
            code: body.code,
        },
    })
}

// Sets the calendar of a plan.
pub(crate) fn set_calendar<B: Book>(
    book: &mut B,
    alloc: Global,
    desk: &str,
    number: &str,
    body: &[u8],
) -> Result<Decision<'static>, BookFault>
    ensures { Decides B.shelf book.old book.new desk.now desk.now
        (λ v. routes.Calendars v number.now body.now) result }
{
    let Some(found) = find_plan(book, desk, number)? else {
        return Ok(without_change(not_found()));
    };
    let Some(body) = calendar_body(alloc, body)? else {
        return Ok(without_change(bad_body()));
    };
    if let Err(fault) = Calendar::new(body.start.as_str(), body.days.as_str()) {
        return Ok(without_change(bad_calendar(alloc, calendar_fault_text(fault))?));
    }
    Ok(Decision {
        reply: calendar_answer(alloc, &body)?,
        change: Change::SetCalendar {
            n: found.n,
            start: body.start,
            days: body.days,
        },
    })
}

// Sets the lag of an arc of a project.
pub(crate) fn set_lag<B: Book>(
    book: &mut B,
    alloc: Global,
    files: &mut Files,
    desk: &str,
    number: &str,
    body: &[u8],
) -> Result<Decision<'static>, BookFault>
    ensures { Decides B.shelf book.old book.new desk.now desk.now
        (λ v. routes.SetsLag v number.now body.now) result }
{
    let Some(found) = find_plan(book, desk, number)? else {
        return Ok(without_change(not_found()));
    };
    let Some(body) = lag_body(alloc, body)? else {
        return Ok(without_change(bad_body()));
    };
    let project = file_project(alloc, files, &found.plan)?;
    if let Some(refusal) = lag_refusal(body, project.as_ref()) {
        return Ok(without_change(refusal));
    }
    Ok(Decision {
        reply: lag_answer(alloc, body)?,
        change: Change::SetLag {
            n: found.n,
            from: body.from,
            to: body.to,
            lag: body.lag,
        },
    })
}
