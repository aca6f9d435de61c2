//! The version of the tables and the numbers and kinds of their plans, if they hold an office.

ghost use Rattle.sqlite.specs.State.{HasCleanDisk};
ghost use Rattle.sqlite.specs.Held.{state};
ghost use Rattle.plan_store.specs.TableTests.{CanRead, Inspects, HoldsOthers};
ghost use Rattle.plan_store.specs.TableTests.{IsJudged, SaysOffice};

use crate::kept_plans::KeptPlans;
use crate::layout::Layout;
use crate::plan_review::review_plans;
use crate::plan_test::PlanTest;
use crate::untrusted_tables::{OtherRows, try_others};
use plan_rows::{Beside, BookFault};
use sqlite::{Alter, Connection};
use std::alloc::Global;

// Returns the plans of the tables with these rows, if the tables hold an office.
fn office_plans<S: Alter>(
    alloc: Global,
    conn: &mut Connection<S>,
    layout: Layout,
    others: &OtherRows,
) -> Result<Option<KeptPlans>, BookFault>
    requires ready { CanRead S.Store layout conn.old }
    requires others { HasCleanDisk (state S.Store conn.old)
        → HoldsOthers layout (state S.Store conn.old).now others.now }
    ensures { Inspects S.Store layout conn.old conn.new result
        (λ db. IsJudged layout db others.now) }
{
    let beside = Beside {
        office: &others.office,
        published: others.published.as_slice(),
        desks: others.desks.as_slice(),
        binds: others.binds.as_slice(),
        lags: others.lags.as_slice(),
    };
    let mut review = PlanTest::new(alloc, beside)?;
    if !review_plans(conn, layout, &mut review)? {
        return Ok(None);
    }
    Ok(review.finish()?)
}

/// Reads the version of the tables and the plans in them. There is no version if they hold no
/// office.
pub fn read_version<S: Alter>(
    alloc: Global,
    conn: &mut Connection<S>,
    layout: Layout,
) -> Result<(Option<i64>, KeptPlans), BookFault>
    requires { CanRead S.Store layout conn.old }
    ensures { Inspects S.Store layout conn.old conn.new result (SaysOffice layout) }
{
    let Some(others) = try_others(alloc, conn, layout)? else {
        return Ok((None, KeptPlans::new(alloc)));
    };
    match office_plans(alloc, conn, layout, &others)? {
        Some(kept) => Ok((Some(others.version), kept)),
        None => Ok((None, KeptPlans::new(alloc))),
    }
}
