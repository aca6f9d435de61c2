//! The test of all tables together.

ghost use Rattle.std.specs.Prelude.{◌≡◌, [], IfOk, map};
ghost use Rattle.std.specs.Bool.{MatchBool};
ghost use Rattle.std.specs.List.{AllByRecursion};
ghost use Rattle.plan_rows.specs.Rules.{IsWorld, IsPlanRow};
ghost use Rattle.plan_rows.specs.Tables.{world_kept, plan_kept};
ghost use Rattle.plan_rows.specs.RowTests.{Tells};
ghost use Rattle.plan_rows.specs.PlanReview.{HasReviewed};

use crate::row_tests::other_rows::Beside;
use crate::row_tests::review::Review;
use crate::tables::{PlanRecord, Tables};
use std::alloc::{AllocError, Global};

// Returns whether all plans keep the rules of rows. It reads each file once.
fn review_all(review: &mut Review<'_>, plans: &[PlanRecord]) -> Result<bool, AllocError>
    requires { HasReviewed [] review.old }
    ensures same { review.new.beside ≡ review.old.beside }
    ensures told { IfOk result (λ good. MatchBool good
        (HasReviewed (map plan_kept plans.now) review.new)
        (AllByRecursion IsPlanRow (map plan_kept plans.now) → ⊥)) }
{
    for plan in plans {
        if !review.read(plan)? {
            return Ok(false);
        }
    }
    Ok(true)
}

/// Returns whether tables keep the rules of rows. It reads each file once and finds rows by key.
pub fn is_world(alloc: Global, tables: &Tables) -> Result<bool, AllocError>
    ensures { IfOk result (λ good. Tells good (IsWorld (world_kept tables.now))) }
{
    let beside = Beside {
        office: &tables.office,
        published: tables.published.as_slice(),
        desks: tables.desks.as_slice(),
        binds: tables.binds.as_slice(),
        lags: tables.lags.as_slice(),
    };
    let mut review = Review::new(alloc, beside)?;
    if !review_all(&mut review, tables.plans.as_slice())? {
        return Ok(false);
    }
    review.is_world()
}
