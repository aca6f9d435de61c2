//! The execution of decisions: at most one writing call.

ghost use Rattle.plan_desk.specs.BookSteps.{Allows, CarriesOut, Knows, change_in, owner_of};

use crate::change::Change;
use plan_rows::{Book, BookFault};

// Makes a change for the desk on the path, or for the desk that the change opens.
pub(crate) fn carry_out<B: Book>(
    book: &mut B,
    desk: &str,
    change: Change<'_>,
) -> Result<(), BookFault>
    requires { Knows B.shelf book.old
        (λ w. Allows (owner_of desk.now change) w (change_in change)) }
    ensures { CarriesOut B.shelf book.old book.new
        (owner_of desk.now change.entry) (change_in change.entry) result }
{
    match change {
        Change::Keep => Ok(()),
        Change::Publish {
            code,
            kind,
            capacity,
        } => book.publish(code.as_str(), kind, capacity),
        Change::OpenDesk { name, digest } => book.open_desk(name.as_str(), &digest),
        Change::SetKey { digest } => book.set_key(desk, &digest),
        Change::AddPlan { kind, name, body } => book.add_plan(desk, kind, name, body),
        Change::RemovePlan { n } => book.remove_plan(desk, n),
        Change::BindPlace { n, place, code } => book.bind(desk, n, place, code.as_str()),
        Change::SetCalendar { n, start, days } => {
            book.set_calendar(desk, n, start.as_str(), days.as_str())
        }
        Change::SetLag { n, from, to, lag } => book.set_lag(desk, n, from, to, lag),
    }
}
