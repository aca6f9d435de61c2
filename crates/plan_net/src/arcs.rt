//! A network within the limits, before the test for a cycle, with its rows of predecessors,
//! successors and lags.

ghost use Rattle.std.specs.Prelude.{◌≡◌, ℕ, List, ◌≤◌, [], length, map, slice_index, EachIndex, IfOk, IfErr, OnOk, OnErr, IfSome, IfNone};
ghost use Rattle.plan_net.specs.Network.{IsActivity, IsArc, ListsRising, duration_of, count_of, lag_of, unlagged, with_lag};
ghost use Rattle.plan_net.specs.Successors.{AreRows, arcs_of_rows, rows_in};
ghost use Rattle.plan_net.specs.Limits.{IsWithinLimits, HasGoodSize, HasGoodDurations, HasGoodArcs};
ghost use Rattle.plan_net.specs.Refusals.{IsFirstFault, IsLagFault, NamesCycle};

use super::checks::{first_bad_arc, first_bad_duration};
use super::fault::NetFault;
use super::limits::{FEWEST_ACTIVITIES, LONGEST_DURATION, LONGEST_LAG, MOST_ACTIVITIES};
use super::rows::{arcs_of_rows, rising_rows, rows_by_end, turned};
use super::tables::{first_double_arc, no_lags, no_marks, place_in};
use std::alloc::{AllocError, Global};
use std::marker::Model;

/// An activity network within the limits, with the rising rows of predecessors and successors.
#[derive(Drop)]
pub struct Arcs {
    durations: Vec<u64>,
    arcs: Vec<(u32, u32)>,
    preds: Vec<Vec<u32>>,
    succs: Vec<Vec<u32>>,
    // for each entry of `preds` the lag of its arc
    lags: Vec<Vec<u64>>,
}

impl Model for Arcs {
    ghost use Rattle.plan_net.specs.Network.{Net};

    ghost Value = { Net };

    ghost use Rattle.plan_net.specs.Indexed.{net_of, IsIndexed};

    ghost view = { net_of };

    ghost invariant = { IsIndexed };
}

// Returns the first error of a network that needs no table: its size, a duration or an end of an
// arc.
fn plain_fault(durations: &[u64], arcs: &[(u32, u32)]) -> Option<NetFault>
    ensures some { IfSome result (IsFirstFault (unlagged durations.now arcs.now)) }
    ensures cycle { IfSome result (NamesCycle (unlagged durations.now arcs.now)) }
    ensures none { IfNone result (HasGoodSize (unlagged durations.now arcs.now) × HasGoodDurations
        (unlagged durations.now arcs.now) × HasGoodArcs (unlagged durations.now arcs.now)) }
{
    let count = durations.len();
    if count < FEWEST_ACTIVITIES || count > MOST_ACTIVITIES {
        return Some(NetFault::Size);
    }
    if let Some(j) = first_bad_duration(durations) {
        return Some(NetFault::BadDuration(j));
    }
    match first_bad_arc(durations, arcs) {
        Some((i, j)) => Some(NetFault::BadArc(i, j)),
        None => None,
    }
}

impl Arcs {
    /// Returns the network of these durations and arcs, all lags 0, or its first error. Doesn't
    /// test for a cycle.
    pub fn new(alloc: Global, durations: Vec<u64>, arcs: Vec<(u32, u32)>) -> Result<Self, NetFault>
        ensures accepted { IfOk result (λ made. (made ≡ unlagged durations.items arcs.items)
            × IsWithinLimits made) }
        ensures refused { IfErr result (IsFirstFault (unlagged durations.items arcs.items)) }
        ensures cycle { IfErr result (NamesCycle (unlagged durations.items arcs.items)) }
    {
        if let Some(fault) = plain_fault(&durations, &arcs) {
            return Err(fault);
        }
        let mut marks = no_marks(alloc, durations.len())?;
        if let Some((i, j)) = first_double_arc(&durations, &arcs, &mut marks) {
            return Err(NetFault::DoubleArc(i, j));
        }
        let beginnings = rows_by_end(alloc, &durations, &arcs)?;
        let succs = turned(alloc, &beginnings)?;
        let preds = turned(alloc, &succs)?;
        let lags = no_lags(alloc, &preds)?;
        Ok(Arcs {
            durations,
            arcs,
            preds,
            succs,
            lags,
        })
    }

    /// Returns the network of these durations and of the arcs of these rows of successors, all lags
    /// 0.
    pub fn of_rows(
        alloc: Global,
        durations: Vec<u64>,
        rows: Vec<Vec<u32>>,
    ) -> Result<Self, AllocError>
        requires size { HasGoodSize (unlagged durations.items []) }
        requires durations { HasGoodDurations (unlagged durations.items []) }
        requires rows { AreRows (length durations.items) (rows_in rows.items) }
        ensures made { IfOk result (λ made. made ≡ unlagged durations.items
            (arcs_of_rows 1 (rows_in rows.items))) }
        ensures limits { IfOk result IsWithinLimits }
    {
        let arcs = arcs_of_rows(alloc, &rows)?;
        let preds = turned(alloc, &rows)?;
        let succs = rising_rows(alloc, rows, &preds)?;
        let lags = no_lags(alloc, &preds)?;
        Ok(Arcs {
            durations,
            arcs,
            preds,
            succs,
            lags,
        })
    }

    /// Returns the number of activities.
    pub fn len(&self) -> usize
        ensures count { result ≡ count_of self.now }
        ensures limits { IsWithinLimits self.now }
    {
        self.durations.len()
    }

    pub fn duration(&self, j: u32) -> u64
        requires { IsActivity self.now j }
        ensures value { result ≡ duration_of self.now j }
        ensures limit { result ≤ LONGEST_DURATION }
    {
        self.durations[j as usize - 1]
    }

    /// Returns the arcs in the order of the input.
    pub fn arcs(&self) -> &[(u32, u32)]
        ensures value { result.now ≡ self.now.arcs }
        ensures lags { self.now.lags ≡ map (λ arc. lag_of self.now arc.0 arc.1) self.now.arcs }
    {
        self.arcs.as_slice()
    }

    /// Returns the predecessors of activity `j` in rising order.
    pub fn preds(&self, j: u32) -> &[u32]
        requires { IsActivity self.now j }
        ensures exact { ListsRising (λ i. IsArc self.now i j) result.now }
        ensures activities { EachIndex result.now
            (λ k. IsActivity self.now (slice_index result.now k)) }
    {
        self.preds[j as usize - 1].as_slice()
    }

    /// Returns the successors of activity `j` in rising order.
    pub fn succs(&self, j: u32) -> &[u32]
        requires { IsActivity self.now j }
        ensures exact { ListsRising (IsArc self.now j) result.now }
        ensures activities { EachIndex result.now
            (λ k. IsActivity self.now (slice_index result.now k)) }
    {
        self.succs[j as usize - 1].as_slice()
    }

    /// Returns the lag of the arc from `i` to `j`, or `None` if there is no such arc.
    pub fn lag(&self, i: u32, j: u32) -> Option<u64>
        ensures some { IfSome result (λ w. IsArc self.now i j × (w ≡ lag_of self.now i j)) }
        ensures none { IfNone result (IsArc self.now i j → ⊥) }
    {
        match place_in(&self.preds, i, j) {
            Some((row, place)) => Some(self.lags[row][place]),
            None => None,
        }
    }

    /// Returns the lags of the arcs to activity `j`, in the order of `preds(j)`.
    pub fn lags_into(&self, j: u32) -> &[u64]
        requires { IsActivity self.now j }
        ensures value { (row : List ℕ) → ListsRising (λ i. IsArc self.now i j) row →
            result.now ≡ map (λ i. lag_of self.now i j) row }
        ensures limit { EachIndex result.now (λ k. slice_index result.now k ≤ LONGEST_LAG) }
    {
        self.lags[j as usize - 1].as_slice()
    }

    /// Sets the lag of the arc from `i` to `j`.
    pub fn set_lag(&mut self, i: u32, j: u32, lag: u64) -> Result<(), NetFault>
        ensures ok { OnOk result (IsArc self.old i j × (lag ≤ LONGEST_LAG) ×
            (self.new ≡ with_lag self.old i j lag)) }
        ensures refused { IfErr result (IsLagFault self.old i j lag) }
        ensures err { OnErr result (self.new ≡ self.old) }
    {
        match place_in(&self.preds, i, j) {
            None => Err(NetFault::NoArc(i, j)),
            Some((row, place)) => {
                if lag > LONGEST_LAG {
                    return Err(NetFault::BadLag(i, j));
                }
                self.lags[row][place] = lag;
                Ok(())
            }
        }
    }
}
