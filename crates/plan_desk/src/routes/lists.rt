//! The lists: the published codes, and the plans of a desk.

ghost use Rattle.plan_desk.specs.Outcomes.{tells};
ghost use Rattle.plan_desk.specs.JsonTexts.{codes_text, plans_text};
ghost use Rattle.plan_desk.specs.BookSteps.{Decides};

use crate::answers::{codes_answer, plans_answer};
use crate::change::{Decision, without_change};
use plan_rows::{Book, BookFault};
use std::alloc::Global;

// Lists all published codes.
pub(crate) fn list_codes<B: Book>(
    book: &mut B,
    alloc: Global,
    desk: &str,
) -> Result<Decision<'static>, BookFault>
    ensures { Decides B.shelf book.old book.new desk.now desk.now
        (λ v. tells (codes_text v.published)) result }
{
    let rows = book.capacities()?;
    let reply = codes_answer(alloc, &rows)?;
    Ok(without_change(reply))
}

// Lists the plans of a desk.
pub(crate) fn list_plans<B: Book>(
    book: &mut B,
    alloc: Global,
    desk: &str,
) -> Result<Decision<'static>, BookFault>
    ensures { Decides B.shelf book.old book.new desk.now desk.now
        (λ v. tells (plans_text v.plans)) result }
{
    let rows = book.plans(desk)?;
    let reply = plans_answer(alloc, &rows)?;
    Ok(without_change(reply))
}
