//! The calls of an office's tables, for any storage.

ghost use Rattle.std.specs.Prelude.{◌≡◌, [], Option, Some, None, find, length};
ghost use Rattle.std.specs.Prelude.{IfSome, IsSome};
ghost use Rattle.plan_rows.specs.World.{World, desk_in, plan_in, code_in};
ghost use Rattle.plan_rows.specs.Views.{view};
ghost use Rattle.plan_rows.specs.Changes.{apply, Publish, OpenDesk, SetKey, AddPlan};
ghost use Rattle.plan_rows.specs.Changes.{RemovePlan, BindPlace, SetCalendar, SetLag};
ghost use Rattle.plan_rows.specs.Plans.{has_number};
ghost use Rattle.plan_rows.specs.Rules.{IsWorld};
ghost use Rattle.plan_rows.specs.Books.{Shelf, Writes, Matches, IsDeskAnswer};
ghost use Rattle.plan_rows.specs.Books.{IsCapacityAnswer, IsPlanAnswer, ListsCodes, ListsPlans};
ghost use Rattle.plan_rows.specs.BookCalls.{Needs, KeepsRules, Answers};

use crate::fault::BookFault;
use crate::kinds::{Kind, PlanKind};
use crate::rows::{CodeRow, DeskRow, PlanEntry, PlanRow};

/// The tables of an office. Each call that writes is one transaction. A `requires` of a call holds
/// for tables that can be read, on a disk that has returned what was written.
pub trait Book {
    /// The functions and facts that contracts use.
    ghost shelf: { Shelf Self };

    /// Reads the digest of the office's key.
    fn office(&mut self) -> Result<[u8; 32], BookFault>
        ensures { Answers shelf self.old self.new result (λ w digest. digest ≡ w.office) };

    /// Reads a desk by its name.
    fn desk(&mut self, name: &str) -> Result<Option<DeskRow>, BookFault>
        ensures { Answers shelf self.old self.new result
            (λ w. Matches IsDeskAnswer (desk_in w name.now)) };

    /// Opens a desk, whose plans are numbered from 1.
    fn open_desk(&mut self, name: &str, digest: &[u8; 32]) -> Result<(), BookFault>
        requires absent { Needs shelf self.old (λ w. desk_in w name.now ≡ None) }
        requires kept { KeepsRules shelf self.old (apply name.now (OpenDesk digest.now)) }
        ensures { Writes shelf self.old self.new result (apply name.now (OpenDesk digest.now)) };

    /// Sets the key of a desk.
    fn set_key(&mut self, name: &str, digest: &[u8; 32]) -> Result<(), BookFault>
        requires there { Needs shelf self.old (λ w. IsSome (desk_in w name.now)) }
        requires kept { KeepsRules shelf self.old (apply name.now (SetKey digest.now)) }
        ensures { Writes shelf self.old self.new result (apply name.now (SetKey digest.now)) };

    /// Publishes a code, or sets the capacity of a published one.
    fn publish(&mut self, code: &str, kind: Kind, capacity: u64) -> Result<(), BookFault>
        requires same { Needs shelf self.old
            (λ w. IfSome (code_in w.published code.now) (λ row. row.kind ≡ kind)) }
        requires kept { KeepsRules shelf self.old (apply [] (Publish code.now kind capacity)) }
        ensures { Writes shelf self.old self.new result
            (apply [] (Publish code.now kind capacity)) };

    /// Reads the kind and the capacity of a published code.
    fn capacity(&mut self, code: &str) -> Result<Option<(Kind, u64)>, BookFault>
        ensures { Answers shelf self.old self.new result
            (λ w. Matches IsCapacityAnswer (code_in w.published code.now)) };

    /// Lists the published codes in ascending order.
    fn capacities(&mut self) -> Result<Vec<CodeRow>, BookFault>
        ensures { Answers shelf self.old self.new result
            (λ w rows. ListsCodes w.published rows.items) };

    /// Lists the plans of a desk by number.
    fn plans(&mut self, desk: &str) -> Result<Vec<PlanEntry>, BookFault>
        ensures { Answers shelf self.old self.new result
            (λ w rows. ListsPlans (view desk.now w).plans rows.items) };

    /// Counts the plans of a desk.
    fn count_plans(&mut self, desk: &str) -> Result<usize, BookFault>
        ensures { Answers shelf self.old self.new result
            (λ w count. count ≡ length (view desk.now w).plans) };

    /// Reads a plan of a desk, with its binds and lags.
    fn plan(&mut self, desk: &str, n: u64) -> Result<Option<PlanRow>, BookFault>
        ensures { Answers shelf self.old self.new result
            (λ w. Matches (IsPlanAnswer (view desk.now w))
            (find (has_number n) (view desk.now w).plans)) };

    /// Adds a plan with the desk's next number, which rises by 1. The name of a project is empty.
    fn add_plan(
        &mut self,
        desk: &str,
        kind: PlanKind,
        name: &str,
        body: &[u8],
    ) -> Result<(), BookFault>
        requires there { Needs shelf self.old (λ w. IsSome (desk_in w desk.now)) }
        requires kept { KeepsRules shelf self.old
            (apply desk.now (AddPlan kind name.now body.now)) }
        ensures { Writes shelf self.old self.new result
            (apply desk.now (AddPlan kind name.now body.now)) };

    /// Removes a plan with its binds and lags. Its number isn't used again.
    fn remove_plan(&mut self, desk: &str, n: u64) -> Result<(), BookFault>
        requires there { Needs shelf self.old (λ w. IsSome (plan_in w desk.now n)) }
        requires kept { KeepsRules shelf self.old (apply desk.now (RemovePlan n)) }
        ensures { Writes shelf self.old self.new result (apply desk.now (RemovePlan n)) };

    /// Binds a published code to a place of a plan. It replaces a code that is bound there.
    fn bind(&mut self, desk: &str, n: u64, place: u64, code: &str) -> Result<(), BookFault>
        requires there { Needs shelf self.old (λ w. IsSome (plan_in w desk.now n)) }
        requires published { Needs shelf self.old (λ w. IsSome (code_in w.published code.now)) }
        requires kept { KeepsRules shelf self.old (apply desk.now (BindPlace n place code.now)) }
        ensures { Writes shelf self.old self.new result
            (apply desk.now (BindPlace n place code.now)) };

    /// Sets the calendar of a plan.
    fn set_calendar(&mut self, desk: &str, n: u64, start: &str, days: &str) -> Result<(), BookFault>
        requires there { Needs shelf self.old (λ w. IsSome (plan_in w desk.now n)) }
        requires kept { KeepsRules shelf self.old
            (apply desk.now (SetCalendar n start.now days.now)) }
        ensures { Writes shelf self.old self.new result
            (apply desk.now (SetCalendar n start.now days.now)) };

    /// Sets the lag of an arc of a project. 0 removes it.
    fn set_lag(&mut self, desk: &str, n: u64, from: u32, to: u32, lag: u64) -> Result<(), BookFault>
        requires there { Needs shelf self.old (λ w. IsSome (plan_in w desk.now n)) }
        requires kept { KeepsRules shelf self.old (apply desk.now (SetLag n from to lag)) }
        ensures { Writes shelf self.old self.new result (apply desk.now (SetLag n from to lag)) };

    /// Tables that can be read keep the rules of rows.
    ghost whole: { (book : Self) → shelf.stands book → IsWorld (shelf.world book) };

    /// A crash may leave the tables as they are.
    ghost now_may: { (book : Self) → shelf.stands book
        → shelf.may_leave book (Some (shelf.world book)) };

    /// A crash leaves something, even if an error has closed the tables.
    ghost leaves: { (book : Self) → shelf.honest book
        → ((w : Option World) → shelf.may_leave book w → ⊥) → ⊥ };
}
