//! Rows of amounts, one after another in one list. Each row contains an amount for each resource.
ghost use Rattle.std.specs.Prelude.{◌≡◌, ℕ, ◌+◌, ◌*◌, ◌^◌, ◌≤◌, ◌<◌, ◌++◌, length, take, drop};
ghost use Rattle.std.specs.Prelude.{vec_len, vec_capacity, IfOk, OnOk};
ghost use Rattle.plan_profile.specs.Steps.{row_at};
ghost use Rattle.plan_profile.specs.Changes.{AreRaised, HaveSums};

use crate::row::add_needs;
use std::alloc::{AllocError, Global};

// Returns the row at an index.
pub(crate) fn row(rows: &[u64], width: usize, i: usize) -> &[u64]
    requires { i * width + width ≤ length rows.now }
    ensures { result.now ≡ row_at width rows.now i }
{
    let at = i * width;
    &rows[at..at + width]
}

// Returns a copy with spare capacity for `more` further numbers.
pub(crate) fn copy_with_room(
    alloc: Global,
    items: &[u64],
    more: usize,
) -> Result<Vec<u64>, AllocError>
    requires { length items.now + more < 2 ^ 64 }
    ensures { IfOk result (λ copy. copy.items ≡ items.now) }
{
    let mut copy = Vec::with_capacity(alloc, items.len() + more)?;
    copy.extend_from_slice(items)?;
    Ok(copy)
}

// Replaces the numbers of a list by others.
pub(crate) fn refill(items: &mut Vec<u64>, from: &[u64]) -> Result<(), AllocError>
    ensures { OnOk result (items.new.items ≡ from.now) }
{
    items.clear();
    items.extend_from_slice(from)
}

// Inserts a copy of a row after it. The spare capacity must suffice.
pub(crate) fn repeat_row(rows: &mut Vec<u64>, width: usize, i: usize)
    requires within { i * width + width ≤ vec_len rows.old }
    requires room { vec_len rows.old + width ≤ vec_capacity rows.old }
    ensures items { rows.new.items
        ≡ take (i * width + width) rows.old.items ++ drop (i * width) rows.old.items }
    ensures len { vec_len rows.new ≡ vec_len rows.old + width }
    ensures capacity { vec_capacity rows.old ≤ vec_capacity rows.new }
{
    let len = rows.len();
    let at = i * width;
    let _ = rows.resize(len + width, 0);
    rows.copy_within(at..len, at + width);
}

// Removes a row.
pub(crate) fn remove_row(rows: &mut Vec<u64>, width: usize, i: usize)
    requires { i * width + width ≤ vec_len rows.old }
    ensures { rows.new.items
        ≡ take (i * width) rows.old.items ++ drop (i * width + width) rows.old.items }
{
    let len = rows.len();
    let at = i * width;
    rows.copy_within(at + width..len, at);
    rows.truncate(len - width);
}

// Adds needs to the rows with indices from `from` to before `to`.
pub(crate) fn raise(rows: &mut [u64], from: usize, to: usize, needs: &[u64])
    requires order { from ≤ to }
    requires within { to * length needs.now ≤ length rows.old }
    requires sums { HaveSums rows.old from to needs.now }
    ensures { AreRaised rows.old from to needs.now rows.new }
{
    let width = needs.len();
    for i in from..to {
        let at = i * width;
        add_needs(&mut rows[at..at + width], needs);
    }
}
