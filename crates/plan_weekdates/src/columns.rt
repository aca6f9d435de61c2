//! The columns of a list whose cells can be dates.

ghost use Rattle.std.specs.Prelude.{◌≡◌, [], map, IfOk};
ghost use Rattle.plan_table.specs.Header.{head_of};
ghost use Rattle.plan_table.specs.Settlement.{body_of};
ghost use Rattle.plan_weeklist.specs.Columns as dates;
ghost use Rattle.plan_weekdates.specs.DateColumns as spec;

use plan_table::{Body, Head, has_capacity, same};
use std::alloc::{AllocError, Global};

/// A column whose cells can be dates.
#[derive(Clone, Copy, Debug, PartialEq, Eq)]
pub enum DateColumn {
    Earliest,
    Fixed,
    Begun,
    Done,
    Due,
}

// Whether column `k` has dates of a kind.
fn is_dated(body: &Body<'_>, word: &[u8], k: usize, head: &Head) -> bool
    ensures { result ≡ dates.is_dated (body_of body.now) word.now k (head_of head.now) }
{
    same(&head.key, word) && !has_capacity(body, k, head)
}

// Returns column `k`, if it is one of dates.
fn column_at(body: &Body<'_>, k: usize, head: &Head) -> Option<DateColumn>
    ensures { result ≡ spec.column_at (body_of body.now) k (head_of head.now) }
{
    if is_dated(body, b"earliest", k, head) {
        return Some(DateColumn::Earliest);
    }
    if is_dated(body, b"fixed", k, head) {
        return Some(DateColumn::Fixed);
    }
    if is_dated(body, b"begun", k, head) {
        return Some(DateColumn::Begun);
    }
    if is_dated(body, b"done", k, head) {
        return Some(DateColumn::Done);
    }
    if is_dated(body, b"due", k, head) {
        return Some(DateColumn::Due);
    }
    None
}

/// Returns the columns of a list: those of dates, and `None` for each other one.
#[tactic(auto, unfolding(crate::specs::DateColumns::columns_at))]
pub fn columns_of(
    alloc: Global,
    body: &Body<'_>,
    heads: &[Head],
) -> Result<Vec<Option<DateColumn>>, AllocError>
    ensures { IfOk result (λ v. v.items
        ≡ spec.columns_at (body_of body.now) [] 0 (map head_of heads.now)) }
{
    let mut columns = Vec::new(alloc);
    for (k, head) in heads.iter().enumerate() {
        columns.push(column_at(body, k, head))?;
    }
    Ok(columns)
}
