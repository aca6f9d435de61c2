//! The test of an office that has the file of one plan at a time in memory.

ghost use Rattle.std.specs.Prelude.{◌≡◌, ◌&&◌, ◌++◌, ◌∷◌, [], true, not};
ghost use Rattle.std.specs.Prelude.{List, IfOk};
ghost use Rattle.std.specs.Bool.{MatchBool};
ghost use Rattle.std.specs.List.{AllByRecursion, position};
ghost use Rattle.plan_rows.specs.World.{Plan};
ghost use Rattle.plan_rows.specs.Rules.{IsPlanRow, IsWorld};
ghost use Rattle.plan_rows.specs.Tables.{world_beside, head_of, plan_kept, head_seen};
ghost use Rattle.plan_rows.specs.RowTests.{Tells, GivesFile, HeldKey, AreFirst};
ghost use Rattle.plan_rows.specs.PlanReview.{holds_key, has_row, is_arc_key, key_at};
ghost use Rattle.plan_rows.specs.PlanReview.{lag_key_of, is_owner, owner_key_of};
ghost use Rattle.plan_rows.specs.PlanReview.{IsStruckBy, IsStruck, SomeLeft};
ghost use Rattle.plan_rows.specs.PlanReview.{HasReviewed};

use crate::row_tests::files::PlanFile;
use crate::row_tests::keyed::{Keyed, keys_differ, keys_of};
use crate::row_tests::other_rows::{Beside, PlanSeen};
use crate::row_tests::places::Places;
use crate::row_tests::rows::read_row;
use crate::row_tests::tested::rows_are_good;
use crate::tables::digests::known_digest;
use crate::tables::{LagRecord, PlanRecord};
use std::alloc::{AllocError, Global};
use std::collections::{HashMap, HashSet};

/// A test of plans, one at a time, and of the other rows of their office.
#[derive(Drop)]
pub struct Review<'a> {
    alloc: Global,
    beside: Beside<'a>,
    owners: HashMap<(&'a str, u64, u64, u64), usize>,
    pending: HashSet<(&'a str, u64, u64, u64)>,
    plans: Vec<PlanSeen>,
}

// Returns the key of the plan of a lag.
fn owner_key(lag: &LagRecord) -> (&str, u64, u64, u64)
    ensures { (result.0.now, result.1, result.2, result.3) ≡ owner_key_of lag.now }
{
    (lag.desk.as_str(), lag.n, 0, 0)
}

// Maps each plan to the index of its first lag.
fn owners_of<'a>(
    alloc: Global,
    lags: &'a [LagRecord],
) -> Result<HashMap<(&'a str, u64, u64, u64), usize>, AllocError>
    ensures { IfOk result (λ places. AreFirst owner_key_of places lags.now) }
{
    let mut places = HashMap::new(alloc);
    for i in (0..lags.len()).rev() {
        let _ = places.insert(owner_key(&lags[i]), i)?;
    }
    Ok(places)
}

// Returns the key of an arc of a plan.
fn arc_key<'a>(desk: &'a str, n: u64, arc: &(u32, u32)) -> (&'a str, u64, u64, u64)
    ensures { (result.0.now, result.1, result.2, result.3) ≡ key_at desk.now n arc.now }
{
    (desk, n, u64::from(arc.0), u64::from(arc.1))
}

// Removes the keys of arcs of a plan.
fn strike_arcs<'a>(
    pending: &mut HashSet<(&'a str, u64, u64, u64)>,
    desk: &'a str,
    n: u64,
    arcs: &[(u32, u32)],
)
    ensures { (q : HeldKey) → holds_key pending.new.keys q
        ≡ (holds_key pending.old.keys q && not (is_arc_key desk.now n arcs.now q)) }
{
    for arc in arcs {
        let _ = pending.remove(&arc_key(desk, n, arc));
    }
}

// Finds the index of the first lag of a plan.
fn owner_at(owners: &HashMap<(&str, u64, u64, u64), usize>, row: &PlanRecord) -> Option<usize>
    ensures { (lags : List LagRecord) → AreFirst owner_key_of owners.now lags
        → result ≡ position (is_owner (plan_kept row.now)) lags }
{
    (&*owners).get(&(row.desk.as_str(), row.n, 0, 0)).copied()
}

// Removes the keys of the arcs of a plan, if it has lags.
fn strike<'a>(
    lags: &'a [LagRecord],
    owner: Option<usize>,
    pending: &mut HashSet<(&'a str, u64, u64, u64)>,
    row: &PlanRecord,
    file: &PlanFile,
)
    requires gives { GivesFile (plan_kept row.now).kind (plan_kept row.now).name
        (plan_kept row.now).body file.now }
    requires owner { owner ≡ position (is_owner (plan_kept row.now)) lags.now }
    ensures { (q : HeldKey) → has_row lag_key_of lags.now q ≡ true
        → IsStruckBy (plan_kept row.now) pending.old.keys pending.new.keys q }
{
    let Some(at) = owner else {
        return;
    };
    let Some(network) = &file.network else {
        return;
    };
    strike_arcs(pending, lags[at].desk.as_str(), row.n, network.arcs());
}

// Returns whether no row has one of the remaining keys.
fn are_struck(pending: &HashSet<(&str, u64, u64, u64)>, rows: &[LagRecord]) -> bool
    ensures { MatchBool result
        (AllByRecursion (λ row. IsStruck pending.now.keys (lag_key_of row)) rows.now)
        (SomeLeft lag_key_of pending.now.keys rows.now) }
{
    for row in rows {
        if (&*pending).contains(&row.key()) {
            return false;
        }
    }
    true
}

// Returns a plan without its file, with this number of places.
fn seen(alloc: Global, row: &PlanRecord, places: u64) -> Result<PlanSeen, AllocError>
    ensures head { IfOk result (λ seen. head_seen seen ≡ head_of (plan_kept row.now)) }
    ensures places { IfOk result (λ seen. seen.places ≡ places) }
{
    Ok(PlanSeen {
        desk: String::from_str(alloc, row.desk.as_str())?,
        n: row.n,
        kind: row.kind,
        places,
    })
}

impl<'a> Review<'a> {
    /// Begins a review with these other rows.
    pub fn new(alloc: Global, beside: Beside<'a>) -> Result<Review<'a>, AllocError>
        ensures fresh { IfOk result (HasReviewed []) }
        ensures beside { IfOk result (λ review. review.beside ≡ beside.entry) }
    {
        let owners = owners_of(alloc, beside.lags)?;
        let pending = keys_of(alloc, beside.lags)?;
        Ok(Review {
            alloc,
            beside,
            owners,
            pending,
            plans: Vec::new(alloc),
        })
    }

    /// Tests the next plan and returns whether it keeps the rules of rows.
    pub fn read(&mut self, row: &PlanRecord) -> Result<bool, AllocError>
        requires { (plans : List Plan) × HasReviewed plans self.old }
        ensures same { self.new.beside ≡ self.old.beside }
        ensures told { (plans : List Plan) → HasReviewed plans self.old → IfOk result
            (λ good. MatchBool good
            (IsPlanRow (plan_kept row.now)
            × HasReviewed (plans ++ plan_kept row.now ∷ []) self.new)
            (IsPlanRow (plan_kept row.now) → ⊥)) }
    {
        let Some(file) = read_row(self.alloc, row)? else {
            return Ok(false);
        };
        strike(
            self.beside.lags,
            owner_at(&self.owners, row),
            &mut self.pending,
            row,
            &file,
        );
        self.plans.push(seen(self.alloc, row, file.places)?)?;
        Ok(true)
    }

    /// Returns whether the plans that were read and the other rows keep the rules of rows.
    pub fn is_world(&self) -> Result<bool, AllocError>
        ensures { (plans : List Plan) → HasReviewed plans self.now → IfOk result
            (λ good. Tells good (IsWorld (world_beside self.now.beside plans))) }
    {
        known_digest(self.beside.office);
        if !are_struck(&self.pending, self.beside.lags) {
            return Ok(false);
        }
        if !keys_differ(self.alloc, &self.beside, self.plans.as_slice())? {
            return Ok(false);
        }
        let places = Places::of(self.alloc, &self.beside, self.plans.as_slice())?;
        Ok(rows_are_good(&self.beside, self.plans.as_slice(), &places))
    }
}
