//! The steps of a profile: the instants at which usage changes, and the amounts between them.
ghost use Rattle.std.specs.Prelude.{◌≡◌, ℕ, ◌+◌, ◌<◌, ◌≤◌, length, insert, vec_len, vec_capacity};
ghost use Rattle.std.specs.Prelude.{Contains, OnOk, OnErr};
ghost use Rattle.plan_profile.specs.Usage.{IsRising};
ghost use Rattle.plan_profile.specs.Steps.{changes_until, lists, amount};
ghost use Rattle.plan_profile.specs.Steps.{AreRows, IsSteps, AreChanges};
ghost use Rattle.plan_profile.specs.Changes.{IsCut, IsMerged, IsPlaced, HasSumsBetween};

use crate::rows::{raise, remove_row, repeat_row, row};
use std::alloc::AllocError;

// Returns the number of changes up to instant `t`, which is the index of the row in force at `t`.
pub(crate) fn segment(changes: &[u64], t: u64) -> usize
    requires { IsRising changes.now }
    ensures { result ≡ changes_until changes.now t }
{
    changes.partition_point(|change| *change <= t)
}

// Inserts an item without allocation. The spare capacity must suffice.
fn insert_reserved(items: &mut Vec<u64>, i: usize, item: u64)
    requires within { i ≤ vec_len items.old }
    requires room { vec_len items.old < vec_capacity items.old }
    ensures items { items.new.items ≡ insert items.old.items i item }
    ensures len { vec_len items.new ≡ vec_len items.old + 1 }
    ensures capacity { vec_capacity items.old ≤ vec_capacity items.new }
{
    let _ = items.insert(i, item);
}

// Inserts an instant into the changes unless it is one of them. The amounts stay the same. Returns
// the index of the row in force at the instant.
fn cut(changes: &mut Vec<u64>, rows: &mut Vec<u64>, width: usize, at: u64) -> usize
    requires whole { AreRows width changes.old.items rows.old.items }
    requires steps { IsSteps changes.old.items (lists width changes.old.items rows.old.items) }
    requires room { vec_len changes.old < vec_capacity changes.old }
    requires rows_room { vec_len rows.old + width ≤ vec_capacity rows.old }
    ensures whole { AreRows width changes.new.items rows.new.items }
    ensures cut { IsCut changes.old.items (lists width changes.old.items rows.old.items) at
        changes.new.items (lists width changes.new.items rows.new.items) }
    ensures place { result ≡ changes_until changes.new.items at }
    ensures before { (t : ℕ) → t < at
        → changes_until changes.new.items t ≡ changes_until changes.old.items t }
    ensures len { vec_len changes.new ≤ vec_len changes.old + 1 }
    ensures rows_len { vec_len rows.new ≤ vec_len rows.old + width }
    ensures capacity { vec_capacity changes.old ≤ vec_capacity changes.new }
    ensures rows_capacity { vec_capacity rows.old ≤ vec_capacity rows.new }
{
    let i = segment(changes, at);
    if i > 0 && changes[i - 1] == at {
        return i;
    }
    insert_reserved(changes, i, at);
    repeat_row(rows, width, i);
    i + 1
}

// Removes an instant from the changes if no amount changes there.
fn merge(changes: &mut Vec<u64>, rows: &mut Vec<u64>, width: usize, at: u64)
    requires whole { AreRows width changes.old.items rows.old.items }
    requires steps { IsSteps changes.old.items (lists width changes.old.items rows.old.items) }
    requires there { Contains changes.old.items at }
    ensures whole { AreRows width changes.new.items rows.new.items }
    ensures merged { IsMerged changes.old.items (lists width changes.old.items rows.old.items) at
        changes.new.items (lists width changes.new.items rows.new.items) }
{
    let i = segment(changes, at);
    if row(rows, width, i - 1) == row(rows, width, i) {
        changes.remove(i - 1);
        remove_row(rows, width, i);
    }
}

// Adds needs at the instants from `start` to before `end`. If memory runs out, it changes nothing.
pub(crate) fn place_between(
    changes: &mut Vec<u64>,
    rows: &mut Vec<u64>,
    start: u64,
    end: u64,
    needs: &[u64],
) -> Result<(), AllocError>
    requires whole { AreRows (length needs.now) changes.old.items rows.old.items }
    requires steps { IsSteps changes.old.items
        (lists (length needs.now) changes.old.items rows.old.items) }
    requires true_changes { AreChanges changes.old.items
        (amount changes.old.items (lists (length needs.now) changes.old.items rows.old.items)) }
    requires order { start < end }
    requires sums { HasSumsBetween changes.old.items
        (lists (length needs.now) changes.old.items rows.old.items) start end needs.now }
    ensures whole { OnOk result (AreRows (length needs.now) changes.new.items rows.new.items) }
    ensures ok { OnOk result (IsPlaced changes.old.items
        (lists (length needs.now) changes.old.items rows.old.items) start end needs.now
        changes.new.items (lists (length needs.now) changes.new.items rows.new.items)) }
    ensures changes_kept { OnErr result (changes.new.items ≡ changes.old.items) }
    ensures rows_kept { OnErr result (rows.new.items ≡ rows.old.items) }
{
    let width = needs.len();
    changes.reserve(2)?;
    rows.reserve(2 * width)?;
    let from = cut(changes, rows, width, start);
    let to = cut(changes, rows, width, end);
    raise(rows, from, to, needs);
    merge(changes, rows, width, end);
    merge(changes, rows, width, start);
    Ok(())
}
