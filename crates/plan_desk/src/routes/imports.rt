//! The imports: a route stores a file as a plan of a desk.

ghost use Rattle.plan_desk.specs.FoundFiles.{ImportsFile};
ghost use Rattle.plan_desk.specs.PlanRoutes as routes;
ghost use Rattle.plan_desk.specs.BookSteps.{Decides, Knows};
ghost use Rattle.plan_rows.specs.World.{desk_in};
ghost use Rattle.plan_rows.specs.Books.{Matches, IsDeskAnswer};

use crate::answers::plan_answer;
use crate::change::{Change, Decision, without_change};
use crate::reply::not_found;
use crate::route_refusals::import_refusal;
use plan_rows::{Book, BookFault, DeskRow, PlanKind};
use std::alloc::Global;

// Stores a file as a plan of its kind, with the desk's next number. The row of the desk was read
// with its key.
fn import_plan<'a, B: Book>(
    book: &mut B,
    alloc: Global,
    desk: &str,
    row: Option<DeskRow>,
    kind: PlanKind,
    name: &'a str,
    body: &'a [u8],
) -> Result<Decision<'a>, BookFault>
    requires { Knows B.shelf book.old (λ w. Matches IsDeskAnswer (desk_in w desk.now) row) }
    ensures { Decides B.shelf book.old book.new desk.now desk.now
        (λ v. ImportsFile kind v name.now body.now) result }
{
    let Some(row) = row else {
        return Ok(without_change(not_found()));
    };
    let held = book.count_plans(desk)?;
    if let Some(refusal) = import_refusal(alloc, held, row.next, kind, name, body)? {
        return Ok(without_change(refusal));
    }
    Ok(Decision {
        reply: plan_answer(alloc, row.next, kind)?,
        change: Change::AddPlan { kind, name, body },
    })
}

// Stores the project of a PSPLIB text.
#[tactic(auto, unfolding(crate::specs::PlanRoutes::ImportsProject))]
pub(crate) fn import_project<'a, B: Book>(
    book: &mut B,
    alloc: Global,
    desk: &str,
    row: Option<DeskRow>,
    body: &'a [u8],
) -> Result<Decision<'a>, BookFault>
    requires { Knows B.shelf book.old (λ w. Matches IsDeskAnswer (desk_in w desk.now) row) }
    ensures { Decides B.shelf book.old book.new desk.now desk.now
        (λ v. routes.ImportsProject v body.now) result }
{
    import_plan(book, alloc, desk, row, PlanKind::Project, "", body)
}

// Stores the shop of an instance in an OR-Library text.
#[tactic(auto, unfolding(crate::specs::PlanRoutes::ImportsShop))]
pub(crate) fn import_shop<'a, B: Book>(
    book: &mut B,
    alloc: Global,
    desk: &str,
    row: Option<DeskRow>,
    name: &'a str,
    body: &'a [u8],
) -> Result<Decision<'a>, BookFault>
    requires { Knows B.shelf book.old (λ w. Matches IsDeskAnswer (desk_in w desk.now) row) }
    ensures { Decides B.shelf book.old book.new desk.now desk.now
        (λ v. routes.ImportsShop v name.now body.now) result }
{
    import_plan(book, alloc, desk, row, PlanKind::Shop, name, body)
}
