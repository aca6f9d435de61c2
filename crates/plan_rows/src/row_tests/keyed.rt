//! The test that rows have distinct keys.

ghost use Rattle.std.specs.Prelude.{◌≡◌, List, IfOk};
ghost use Rattle.plan_rows.specs.World.{Plan};
ghost use Rattle.plan_rows.specs.Rules.{AllDiffer};
ghost use Rattle.plan_rows.specs.Books.{published_in};
ghost use Rattle.plan_rows.specs.Tables.{world_beside, desk_kept, head_seen, bind_kept, lag_kept};
ghost use Rattle.plan_rows.specs.RowTests.{Tells, KeysDiffer, RowKey, same_key};
ghost use Rattle.plan_rows.specs.PlanReview.{AreKeys, AreSeen};

use crate::row_tests::other_rows::{Beside, PlanSeen};
use crate::rows::CodeRow;
use crate::tables::{BindRecord, DeskRecord, LagRecord};
use std::alloc::{AllocError, Global};
use std::collections::HashSet;

/// A row that has a key.
pub trait Keyed {
    /// Its key.
    ghost key_of: { Self → RowKey };

    /// Returns its key: a text and three numbers. Numbers that the key doesn't have are 0.
    fn key(&self) -> (&str, u64, u64, u64)
        ensures { (result.0.now, result.1, result.2, result.3) ≡ key_of self.now };
}

impl Keyed for CodeRow {
    ghost key_of = { λ row. ((published_in row).code, 0, 0, 0) };

    fn key(&self) -> (&str, u64, u64, u64) {
        (self.code.as_str(), 0, 0, 0)
    }
}

impl Keyed for DeskRecord {
    ghost key_of = { λ row. ((desk_kept row).desk, 0, 0, 0) };

    fn key(&self) -> (&str, u64, u64, u64) {
        (self.desk.as_str(), 0, 0, 0)
    }
}

impl Keyed for PlanSeen {
    ghost key_of = { λ row. ((head_seen row).desk, (head_seen row).n, 0, 0) };

    fn key(&self) -> (&str, u64, u64, u64) {
        (self.desk.as_str(), self.n, 0, 0)
    }
}

impl Keyed for BindRecord {
    ghost key_of = { λ row. ((bind_kept row).desk, (bind_kept row).n, (bind_kept row).place, 0) };

    fn key(&self) -> (&str, u64, u64, u64) {
        (self.desk.as_str(), self.n, self.place, 0)
    }
}

impl Keyed for LagRecord {
    ghost key_of = { λ row. (
      (lag_kept row).desk,
      (lag_kept row).n,
      (lag_kept row).source,
      (lag_kept row).target,
    ) };

    fn key(&self) -> (&str, u64, u64, u64) {
        (
            self.desk.as_str(),
            self.n,
            u64::from(self.from),
            u64::from(self.to),
        )
    }
}

// Returns whether all rows have distinct keys. It inserts the keys from the last row to the first.
fn all_differ<T: Keyed>(alloc: Global, rows: &[T]) -> Result<bool, AllocError>
    ensures { IfOk result
        (λ good. Tells good (AllDiffer (λ a b. same_key (T.key_of a) (T.key_of b)) rows.now)) }
{
    let mut seen = HashSet::new(alloc);
    for i in (0..rows.len()).rev() {
        let is_new = seen.insert(rows[i].key())?;
        if !is_new {
            return Ok(false);
        }
    }
    Ok(true)
}

/// Returns the set of the keys of rows.
pub fn keys_of<'a, T: Keyed>(
    alloc: Global,
    rows: &'a [T],
) -> Result<HashSet<(&'a str, u64, u64, u64)>, AllocError>
    ensures { IfOk result (λ keys. AreKeys T.key_of keys.keys rows.now) }
{
    let mut keys = HashSet::new(alloc);
    for at in (0..rows.len()).rev() {
        let _ = keys.insert(rows[at].key())?;
    }
    Ok(keys)
}

/// Returns whether the rows of each table have distinct keys.
pub fn keys_differ(
    alloc: Global,
    beside: &Beside<'_>,
    plans: &[PlanSeen],
) -> Result<bool, AllocError>
    ensures { (known : List Plan) → AreSeen known plans.now → IfOk result
        (λ good. Tells good (KeysDiffer (world_beside beside.now known))) }
{
    if !all_differ(alloc, beside.published)? {
        return Ok(false);
    }
    if !all_differ(alloc, beside.desks)? {
        return Ok(false);
    }
    if !all_differ(alloc, plans)? {
        return Ok(false);
    }
    if !all_differ(alloc, beside.binds)? {
        return Ok(false);
    }
    all_differ(alloc, beside.lags)
}
