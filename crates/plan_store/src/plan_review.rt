//! The test of the plans of an untrusted database, one row at a time.

ghost use Rattle.std.specs.Prelude.{◌≡◌, [], false, List, Ok, IfOk, IsTrue};
ghost use Rattle.sqlite.specs.Given.{row_if};
ghost use Rattle.sqlite.specs.State.{HasCleanDisk, IsUnchanged, Survives};
ghost use Rattle.sqlite.specs.Held.{state};
ghost use Rattle.plan_rows.specs.World.{Plan};
ghost use Rattle.plan_store.specs.QueryEffect.{IsAtRest, IsQueryUnder, Queries};
ghost use Rattle.plan_store.specs.TableTests.{CanRead, Inspects};
ghost use Rattle.plan_store.specs.declared.plan_review.Next.TheVariants.{Good};
ghost use Rattle.plan_store.specs.PlanReview.{HasSeen, ReviewsRow, ComesNext, Leaves, Reviews};
ghost use Rattle.plan_store.specs.PlanReview.{ReviewsRest, ReviewsRows, ReviewsPlans};

use crate::fault::fault_of;
use crate::layout::Layout;
use crate::plan_test::PlanTest;
use crate::schema::SELECT_PLANS;
use crate::statements::prepare;
use crate::untrusted_rows::TryFromRow;
use plan_rows::{BookFault, PlanRecord};
use sqlite::{Alter, Connection, Row, Rows, Statement};

/// The next plan of a query: it keeps the rules of rows, it breaks them, or there is none.
#[derive(Debug, Drop)]
pub enum Next {
    Good,
    Bad,
    End,
}

// Returns whether a row is a plan that keeps the rules of rows.
fn review_row(row: &Row, review: &mut PlanTest<'_>) -> Result<bool, BookFault>
    requires { (plans : List Plan) × HasSeen plans review.old }
    ensures same { review.new.review.beside ≡ review.old.review.beside }
    ensures told { (plans : List Plan) → HasSeen plans review.old → IfOk result
        (ReviewsRow row.now plans review.new) }
{
    match PlanRecord::try_from_row(row)? {
        Some(plan) => Ok(review.read(&plan)?),
        None => Ok(false),
    }
}

// Tests the plan of the current row.
fn review_at<S: Alter>(rows: &Rows<'_, S>, review: &mut PlanTest<'_>) -> Result<Next, BookFault>
    requires { (plans : List Plan) × HasSeen plans review.old }
    ensures same { review.new.review.beside ≡ review.old.review.beside }
    ensures told { (plans : List Plan) → HasSeen plans review.old → IfOk result
        (ComesNext (row_if rows.now.has_row rows.now.conn.now) plans review.new) }
{
    let Some(row) = rows.get() else {
        return Ok(Next::End);
    };
    if review_row(row, review)? {
        Ok(Next::Good)
    } else {
        Ok(Next::Bad)
    }
}

// Tests the next plan. The memory of its row is used again for the row after it.
fn review_next<S: Alter>(
    rows: &mut Rows<'_, S>,
    review: &mut PlanTest<'_>,
) -> Result<Next, BookFault>
    requires { (plans : List Plan) × HasSeen plans review.old }
    ensures same_reference { rows.new.conn.ghost_name ≡ rows.old.conn.ghost_name }
    ensures mode { rows.old.conn.now.in_transaction ≡ false
        → rows.new.conn.now.in_transaction ≡ false }
    ensures survives { Survives (state S.Store rows.old.conn.now)
        (state S.Store rows.new.conn.now) (λ _. ⊥) }
    ensures same { review.new.review.beside ≡ review.old.review.beside }
    ensures reviewed { result ≡ Ok Good → (plans : List Plan) × HasSeen plans review.new }
    ensures leaves { HasCleanDisk (state S.Store rows.new.conn.now)
        → Leaves (state S.Store rows.old.conn.now) (state S.Store rows.new.conn.now) }
    ensures told { HasCleanDisk (state S.Store rows.new.conn.now) → IfOk result
        (λ next. IsUnchanged (state S.Store rows.old.conn.now) (state S.Store rows.new.conn.now)
        × Reviews S.Store rows.old.conn.now rows.new.conn.now review.old review.new next) }
{
    rows.advance().map_err(fault_of)?;
    review_at(rows, review)
}

// Tests all remaining plans. A table has fewer than 2^64 rows.
fn review_rest<S: Alter>(
    rows: &mut Rows<'_, S>,
    review: &mut PlanTest<'_>,
) -> Result<bool, BookFault>
    requires fresh { HasSeen [] review.old }
    ensures same_reference { rows.new.conn.ghost_name ≡ rows.old.conn.ghost_name }
    ensures mode { rows.old.conn.now.in_transaction ≡ false
        → rows.new.conn.now.in_transaction ≡ false }
    ensures survives { Survives (state S.Store rows.old.conn.now)
        (state S.Store rows.new.conn.now) (λ _. ⊥) }
    ensures same { review.new.review.beside ≡ review.old.review.beside }
    ensures leaves { HasCleanDisk (state S.Store rows.new.conn.now)
        → Leaves (state S.Store rows.old.conn.now) (state S.Store rows.new.conn.now) }
    ensures told { HasCleanDisk (state S.Store rows.new.conn.now) → IfOk result
        (λ good. IsTrue (state S.Store rows.new.conn.now).is_open
        × ReviewsRest S.Store rows.old.conn.now rows.new.conn.now review.new good) }
{
    for _ in 0..u64::MAX {
        match review_next(rows, review)? {
            Next::Good => {}
            Next::Bad => return Ok(false),
            Next::End => return Ok(true),
        }
    }
    Err(BookFault::Store)
}

// Tests the plans of a query, one at a time.
fn review_rows<S: Alter>(
    conn: &mut Connection<S>,
    statement: &Statement,
    review: &mut PlanTest<'_>,
) -> Result<bool, BookFault>
    requires rest { IsAtRest (state S.Store conn.old) }
    requires query { HasCleanDisk (state S.Store conn.old)
        → IsQueryUnder (state S.Store conn.old).now.schema statement.now.text }
    requires fresh { HasSeen [] review.old }
    ensures same { review.new.review.beside ≡ review.old.review.beside }
    ensures queries { Queries (state S.Store conn.old) (state S.Store conn.new) result
        (ReviewsRows statement.now.text (state S.Store conn.old).now (state S.Store conn.new)
        review.new) }
{
    let mut rows = match conn.query_prepared(statement, &[]) {
        Ok(rows) => rows,
        Err(error) => return Err(fault_of(error)),
    };
    review_rest(&mut rows, review)
}

/// Returns whether all plans keep the rules of rows. It holds the file of one plan at a time.
pub fn review_plans<S: Alter>(
    conn: &mut Connection<S>,
    layout: Layout,
    review: &mut PlanTest<'_>,
) -> Result<bool, BookFault>
    requires ready { CanRead S.Store layout conn.old }
    requires fresh { HasSeen [] review.old }
    ensures same { review.new.review.beside ≡ review.old.review.beside }
    ensures looks { Inspects S.Store layout conn.old conn.new result
        (λ db. ReviewsPlans (db.trees 5) review.new) }
{
    let statement = prepare(conn, SELECT_PLANS)?;
    review_rows(conn, &statement, review)
}
