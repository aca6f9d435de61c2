//! The indexes of rows by their keys, and the number of plans of each desk.

ghost use Rattle.std.specs.Prelude.{◌≡◌, List, IfOk, filter, length};
ghost use Rattle.std.specs.List.{position};
ghost use Rattle.plan_rows.specs.declared.row_tests.other_rows.Beside.{Beside as Others};
ghost use Rattle.plan_rows.specs.declared.row_tests.other_rows.PlanSeen.{PlanSeen as Seen};
ghost use Rattle.plan_rows.specs.World.{is_code, is_desk, is_plan, is_plan_of};
ghost use Rattle.plan_rows.specs.Books.{published_in};
ghost use Rattle.plan_rows.specs.Tables.{desk_kept, head_seen};
ghost use Rattle.plan_rows.specs.RowTests.{AreFirst, AreCounts, ArePlaces};

use crate::row_tests::keyed::Keyed;
use crate::row_tests::other_rows::{Beside, PlanSeen};
use std::alloc::{AllocError, Global};
use std::collections::HashMap;

// Maps each key to the index of its first row. It inserts the rows from the last to the first.
fn places_of<'a, T: Keyed>(
    alloc: Global,
    rows: &'a [T],
) -> Result<HashMap<(&'a str, u64, u64, u64), usize>, AllocError>
    ensures { IfOk result (λ places. AreFirst T.key_of places rows.now) }
{
    let mut places = HashMap::new(alloc);
    for i in (0..rows.len()).rev() {
        let _ = places.insert(rows[i].key(), i)?;
    }
    Ok(places)
}

// Counts the plans of each desk.
fn counts_of<'a>(alloc: Global, rows: &'a [PlanSeen]) -> Result<HashMap<&'a str, usize>, AllocError>
    ensures { IfOk result (λ counts. AreCounts counts rows.now) }
{
    let mut counts = HashMap::new(alloc);
    for i in (0..rows.len()).rev() {
        let desk = rows[i].desk.as_str();
        let count = counts.get(desk).copied().unwrap_or(0usize);
        let _ = counts.insert(desk, count + 1)?;
    }
    Ok(counts)
}

/// The indexes of codes, desks and plans by their keys, and the number of plans of each desk.
#[derive(Drop)]
pub struct Places<'a> {
    codes: HashMap<(&'a str, u64, u64, u64), usize>,
    desks: HashMap<(&'a str, u64, u64, u64), usize>,
    plans: HashMap<(&'a str, u64, u64, u64), usize>,
    counts: HashMap<&'a str, usize>,
}

impl<'a> Places<'a> {
    /// Computes them for these rows.
    pub fn of(
        alloc: Global,
        beside: &Beside<'a>,
        seen: &'a [PlanSeen],
    ) -> Result<Places<'a>, AllocError>
        ensures { IfOk result (ArePlaces beside.now seen.now) }
    {
        let codes = places_of(alloc, beside.published)?;
        let desks = places_of(alloc, beside.desks)?;
        let plans = places_of(alloc, seen)?;
        let counts = counts_of(alloc, seen)?;
        Ok(Places {
            codes,
            desks,
            plans,
            counts,
        })
    }

    /// Finds the index of a code.
    pub fn code_at(&self, code: &str) -> Option<usize>
        ensures { (o : Others) (seen : List Seen) → ArePlaces o seen self.now
            → result ≡ position (λ row. is_code code.now (published_in row)) o.published.now }
    {
        self.codes.get(&(code, 0, 0, 0)).copied()
    }

    /// Finds the index of a desk.
    pub fn desk_at(&self, desk: &str) -> Option<usize>
        ensures { (o : Others) (seen : List Seen) → ArePlaces o seen self.now
            → result ≡ position (λ row. is_desk desk.now (desk_kept row)) o.desks.now }
    {
        self.desks.get(&(desk, 0, 0, 0)).copied()
    }

    /// Finds the index of a plan.
    pub fn plan_at(&self, desk: &str, n: u64) -> Option<usize>
        ensures { (o : Others) (seen : List Seen) → ArePlaces o seen self.now
            → result ≡ position (λ row. is_plan desk.now n (head_seen row)) seen }
    {
        self.plans.get(&(desk, n, 0, 0)).copied()
    }

    /// Returns the number of plans of a desk.
    pub fn count_plans(&self, desk: &str) -> usize
        ensures { (o : Others) (seen : List Seen) → ArePlaces o seen self.now
            → result ≡ length (filter (λ row. is_plan_of desk.now (head_seen row)) seen) }
    {
        self.counts.get(desk).copied().unwrap_or(0usize)
    }
}
