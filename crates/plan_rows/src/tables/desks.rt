//! The table of desks.

ghost use Rattle.std.specs.Prelude.{◌≡◌, ◌++◌, ◌∷◌, [], ◌<◌, map};
ghost use Rattle.std.specs.Prelude.{OnOk, OnErr, IfSome, find};
ghost use Rattle.std.specs.List.{position};
ghost use Rattle.plan_rows.specs.World.{is_desk, same_text};
ghost use Rattle.plan_rows.specs.Changes.{changed, with_digest, risen, new_desk, next_of};
ghost use Rattle.plan_rows.specs.Rules.{AllDiffer};
ghost use Rattle.plan_rows.specs.Tables.{desk_kept};

use crate::tables::records::DeskRecord;
use std::alloc::{AllocError, Global};

/// Finds the index of a desk.
pub fn desk_at(rows: &[DeskRecord], desk: &str) -> Option<usize>
    ensures { result ≡ position (λ row. is_desk desk.now (desk_kept row)) rows.now }
{
    rows.iter().position(|row| row.desk.as_str() == desk)
}

/// Returns the number of a desk's next plan.
pub fn next_number(rows: &[DeskRecord], desk: &str) -> u64
    ensures { result ≡ next_of (find (is_desk desk.now) (map desk_kept rows.now)) }
{
    match desk_at(rows, desk) {
        Some(at) => rows[at].next,
        None => 0,
    }
}

/// Adds a desk, whose plans are numbered from 1.
pub fn add_desk(
    alloc: Global,
    rows: &mut Vec<DeskRecord>,
    desk: &str,
    digest: &[u8; 32],
) -> Result<(), AllocError>
    ensures ok { OnOk result (map desk_kept rows.new.items ≡ map desk_kept rows.old.items
        ++ new_desk desk.now digest.now ∷ []) }
    ensures err { OnErr result (rows.new.items ≡ rows.old.items) }
{
    let desk = String::from_str(alloc, desk)?;
    rows.push(DeskRecord {
        desk,
        digest: *digest,
        next: 1,
    })?;
    Ok(())
}

/// Sets the key of a desk.
pub fn give_digest(rows: &mut Vec<DeskRecord>, desk: &str, digest: &[u8; 32])
    requires { AllDiffer (λ a b. same_text a.desk b.desk) (map desk_kept rows.old.items) }
    ensures { map desk_kept rows.new.items ≡ changed (is_desk desk.now) (with_digest digest.now)
        (map desk_kept rows.old.items) }
{
    if let Some(at) = desk_at(rows, desk) {
        rows[at].digest = *digest;
    }
}

/// Raises the next number of a desk.
pub fn raise_next(rows: &mut Vec<DeskRecord>, desk: &str)
    requires differ { AllDiffer (λ a b. same_text a.desk b.desk) (map desk_kept rows.old.items) }
    requires low { IfSome (find (is_desk desk.now) (map desk_kept rows.old.items))
        (λ row. row.next < 1000002) }
    ensures { map desk_kept rows.new.items ≡ changed (is_desk desk.now) risen
        (map desk_kept rows.old.items) }
{
    if let Some(at) = desk_at(rows, desk) {
        rows[at].next += 1;
    }
}
