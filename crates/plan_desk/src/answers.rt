//! The answers in JSON: objects without white space, with their members in the order of their
//! names. Names and kinds need no escapes.

ghost use Rattle.std.specs.Prelude.{◌≡◌, ◌++◌, IfOk, OnOk, string_bytes};
ghost use Rattle.plan_desk.specs.Calls as calls;
ghost use Rattle.plan_desk.specs.JsonTexts as spec;
ghost use Rattle.plan_desk.specs.Answers as texts;
ghost use Rattle.plan_desk.specs.BodyViews.{publish_in, bind_body_in, calendar_in};
ghost use Rattle.plan_desk.specs.Replies.{reply_of};

use crate::bodies::{BindBody, CalendarBody, LagBody, PublishBody};
use crate::reply::{Reply, answer};
use plan_rows::{CodeRow, Kind, PlanEntry, PlanKind};
use std::alloc::{AllocError, Global};
use std::fmt::Write;

// Adds a published code.
fn push_code(text: &mut String, code: &str, kind: Kind, capacity: u64) -> Result<(), AllocError>
    ensures { OnOk result
        (string_bytes text.new ≡ string_bytes text.old ++ spec.code_text code.now kind capacity) }
{
    let kind = kind.word();
    write!(
        text,
        "{{\"capacity\":{capacity},\"code\":\"{code}\",\"kind\":\"{kind}\"}}"
    )
}

// Adds a plan: its number and its kind.
fn push_plan(text: &mut String, entry: &PlanEntry) -> Result<(), AllocError>
    ensures { OnOk result
        (string_bytes text.new ≡ string_bytes text.old ++ texts.text_of_entry entry.now) }
{
    let kind = entry.kind.word();
    let n = entry.n;
    write!(text, "{{\"kind\":\"{kind}\",\"n\":{n}}}")
}

// The answer to a publication.
pub(crate) fn code_answer(alloc: Global, body: &PublishBody) -> Result<Reply, AllocError>
    ensures { IfOk result (λ reply. reply_of reply
        ≡ calls.answer 200
        (spec.code_text (publish_in body.now).code body.now.kind body.now.capacity)) }
{
    let mut text = String::new(alloc);
    push_code(&mut text, body.code.as_str(), body.kind, body.capacity)?;
    answer(alloc, 200, text.as_str())
}

// The answer after a desk was opened or got another key.
pub(crate) fn desk_answer(alloc: Global, status: u16, desk: &str) -> Result<Reply, AllocError>
    ensures { IfOk result (λ reply. reply_of reply
        ≡ calls.answer status (spec.desk_text desk.now)) }
{
    let mut text = String::new(alloc);
    write!(text, "{{\"desk\":\"{desk}\"}}")?;
    answer(alloc, status, text.as_str())
}

// The answer to an import.
pub(crate) fn plan_answer(alloc: Global, n: u64, kind: PlanKind) -> Result<Reply, AllocError>
    ensures { IfOk result (λ reply. reply_of reply
        ≡ calls.answer 201 (spec.plan_text n kind)) }
{
    let mut text = String::new(alloc);
    push_plan(&mut text, &PlanEntry { n, kind })?;
    answer(alloc, 201, text.as_str())
}

// The answer after a plan was removed.
pub(crate) fn number_answer(alloc: Global, n: u64) -> Result<Reply, AllocError>
    ensures { IfOk result (λ reply. reply_of reply
        ≡ calls.answer 200 (spec.number_text n)) }
{
    let mut text = String::new(alloc);
    write!(text, "{{\"n\":{n}}}")?;
    answer(alloc, 200, text.as_str())
}

// The answer to a bind.
pub(crate) fn bind_answer(alloc: Global, body: &BindBody) -> Result<Reply, AllocError>
    ensures { IfOk result (λ reply. reply_of reply
        ≡ calls.answer 200 (spec.bind_text (bind_body_in body.now).code body.now.place)) }
{
    let mut text = String::new(alloc);
    let code = body.code.as_str();
    let place = body.place;
    write!(text, "{{\"code\":\"{code}\",\"place\":{place}}}")?;
    answer(alloc, 200, text.as_str())
}

// The answer after a calendar was set.
pub(crate) fn calendar_answer(alloc: Global, body: &CalendarBody) -> Result<Reply, AllocError>
    ensures { IfOk result (λ reply. reply_of reply
        ≡ calls.answer 200
        (spec.calendar_text (calendar_in body.now).start (calendar_in body.now).days)) }
{
    let mut text = String::new(alloc);
    let start = body.start.as_str();
    let days = body.days.as_str();
    write!(text, "{{\"days\":\"{days}\",\"start\":\"{start}\"}}")?;
    answer(alloc, 200, text.as_str())
}

// The answer after a lag was set.
pub(crate) fn lag_answer(alloc: Global, body: LagBody) -> Result<Reply, AllocError>
    ensures { IfOk result (λ reply. reply_of reply
        ≡ calls.answer 200 (spec.lag_text body.from body.to body.lag)) }
{
    let mut text = String::new(alloc);
    let from = body.from;
    let to = body.to;
    let lag = body.lag;
    write!(text, "{{\"from\":{from},\"lag\":{lag},\"to\":{to}}}")?;
    answer(alloc, 200, text.as_str())
}

// Adds a comma before each element but the first.
fn push_comma(text: &mut String, i: usize) -> Result<(), AllocError>
    ensures { OnOk result
        (string_bytes text.new ≡ string_bytes text.old ++ texts.comma_before i) }
{
    if i > 0 {
        text.push_str(",")?;
    }
    Ok(())
}

fn push_codes(text: &mut String, rows: &[CodeRow]) -> Result<(), AllocError>
    ensures { OnOk result
        (string_bytes text.new ≡ string_bytes text.old ++ texts.texts_of_codes rows.now) }
{
    for (i, row) in rows.iter().enumerate() {
        push_comma(text, i)?;
        push_code(text, row.code.as_str(), row.kind, row.capacity)?;
    }
    Ok(())
}

fn push_plans(text: &mut String, rows: &[PlanEntry]) -> Result<(), AllocError>
    ensures { OnOk result
        (string_bytes text.new ≡ string_bytes text.old ++ texts.texts_of_entries rows.now) }
{
    for (i, row) in rows.iter().enumerate() {
        push_comma(text, i)?;
        push_plan(text, row)?;
    }
    Ok(())
}

// The list of the published codes.
pub(crate) fn codes_answer(alloc: Global, rows: &[CodeRow]) -> Result<Reply, AllocError>
    ensures { IfOk result (λ reply. reply_of reply
        ≡ calls.answer 200 (texts.list_of_codes rows.now)) }
{
    let mut text = String::from_str(alloc, "{\"capacities\":[")?;
    push_codes(&mut text, rows)?;
    text.push_str("]}")?;
    answer(alloc, 200, text.as_str())
}

// The list of the plans of a desk.
pub(crate) fn plans_answer(alloc: Global, rows: &[PlanEntry]) -> Result<Reply, AllocError>
    ensures { IfOk result (λ reply. reply_of reply
        ≡ calls.answer 200 (texts.list_of_plans rows.now)) }
{
    let mut text = String::from_str(alloc, "{\"plans\":[")?;
    push_plans(&mut text, rows)?;
    text.push_str("]}")?;
    answer(alloc, 200, text.as_str())
}
