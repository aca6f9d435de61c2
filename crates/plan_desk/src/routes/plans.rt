//! The commands on the plans of a desk.

ghost use Rattle.plan_desk.specs.PlanRoutes as routes;
ghost use Rattle.plan_desk.specs.BookSteps.{Decides};

use crate::answers::number_answer;
use crate::change::{Change, Decision, without_change};
use crate::lookup::find_plan;
use crate::reply::not_found;
use plan_rows::{Book, BookFault};
use std::alloc::Global;

// Removes a plan.
pub(crate) fn remove_plan<B: Book>(
    book: &mut B,
    alloc: Global,
    desk: &str,
    number: &str,
) -> Result<Decision<'static>, BookFault>
    ensures { Decides B.shelf book.old book.new desk.now desk.now
        (λ v. routes.Removes v number.now) result }
{
    let Some(found) = find_plan(book, desk, number)? else {
        return Ok(without_change(not_found()));
    };
    Ok(Decision {
        reply: number_answer(alloc, found.n)?,
        change: Change::RemovePlan { n: found.n },
    })
}
