//! The type `Network` and its public functions.

ghost use Rattle.std.specs.Prelude.{◌≡◌, ℕ, List, ◌≤◌, [], length, map, IfOk, IfErr, OnOk, OnErr, IfSome, IfNone, slice_index, EachIndex};
ghost use Rattle.plan_net.specs.Network.{IsActivity, IsArc, ListsRising, duration_of, count_of, lag_of, unlagged, with_lag};
ghost use Rattle.plan_net.specs.Order.{IsLeastOrder, IsTopological};
ghost use Rattle.plan_net.specs.Successors.{AreRows, arcs_of_rows, rows_in};
ghost use Rattle.plan_net.specs.Limits.{IsSound, IsWithinLimits, HasGoodSize, HasGoodDurations};
ghost use Rattle.plan_net.specs.Refusals.{IsFirstFault, IsCycleOrMemory, IsLagFault, NamesCycle};

use super::arcs::Arcs;
use super::cycle::named_cycle;
use super::fault::NetFault;
use super::limits::{LONGEST_DURATION, LONGEST_LAG};
use super::order::{first_open, least_order};
use std::alloc::Global;
use std::marker::Model;

/// An activity network (activity-on-node) within the limits and without a cycle.
///
/// Its activities are numbered from 1 to `len()`. An arc from `i` to `j` with a lag means that `j`
/// starts no earlier than the lag after the end of `i`. Durations and lags are whole time units.
#[derive(Drop)]
pub struct Network {
    arcs: Arcs,
    order: Vec<u32>,
}

impl Model for Network {
    ghost use Rattle.plan_net.specs.Network.{Net};
    ghost use Rattle.plan_net.specs.Order.{IsLeastOrder};
    ghost use Rattle.plan_net.specs.Limits.{IsSound};

    ghost Value = { Net };

    ghost view = { λ a. a.arcs };

    ghost invariant = { λ a. IsSound a.arcs × IsLeastOrder a.arcs a.order.items };
}

// Returns the network of these arcs, or an error that names their cycle.
fn ordered(alloc: Global, arcs: Arcs) -> Result<Network, NetFault>
    requires { IsWithinLimits arcs }
    ensures accepted { IfOk result (λ net. (net ≡ arcs) × IsSound net) }
    ensures refused { IfErr result (IsFirstFault arcs) }
    ensures cycle { IfErr result (NamesCycle arcs) }
    ensures only { IfErr result IsCycleOrMemory }
{
    let (order, placed) = least_order(alloc, &arcs)?;
    match first_open(&placed) {
        None => Ok(Network { arcs, order }),
        Some(first) => Err(NetFault::Cycle(named_cycle(alloc, &arcs, &placed, first)?)),
    }
}

impl Network {
    /// Returns the network of these durations and arcs, all lags 0.
    ///
    /// The duration at index `k` is that of activity `k + 1`. An arc is a pair of predecessor and
    /// successor. The errors are tested in this order: [`NetFault::Size`],
    /// [`NetFault::BadDuration`], [`NetFault::BadArc`], [`NetFault::DoubleArc`],
    /// [`NetFault::Cycle`]. Any call can fail with [`NetFault::NoMemory`].
    pub fn new(alloc: Global, durations: Vec<u64>, arcs: Vec<(u32, u32)>) -> Result<Self, NetFault>
        ensures accepted { IfOk result (λ net. (net ≡ unlagged durations.items arcs.items)
            × IsSound net) }
        ensures refused { IfErr result (IsFirstFault (unlagged durations.items arcs.items)) }
        // the members of the named cycle, followed by the first of them, form a cycle
        ensures cycle { IfErr result (NamesCycle (unlagged durations.items arcs.items)) }
    {
        let arcs = Arcs::new(alloc, durations, arcs)?;
        ordered(alloc, arcs)
    }

    /// Returns the network of these durations and rows of successors, all lags 0. The row at index
    /// `k` contains the successors of activity `k + 1`. The arcs are those of the rows, one row
    /// after another.
    ///
    /// The caller must keep the limits, so the only errors are [`NetFault::Cycle`] and
    /// [`NetFault::NoMemory`].
    pub fn of_rows(
        alloc: Global,
        durations: Vec<u64>,
        rows: Vec<Vec<u32>>,
    ) -> Result<Self, NetFault>
        requires size { HasGoodSize (unlagged durations.items []) }
        requires durations { HasGoodDurations (unlagged durations.items []) }
        requires rows { AreRows (length durations.items) (rows_in rows.items) }
        ensures accepted { IfOk result (λ net.
            (net ≡ unlagged durations.items (arcs_of_rows 1 (rows_in rows.items))) × IsSound net) }
        ensures refused { IfErr result (IsFirstFault
            (unlagged durations.items (arcs_of_rows 1 (rows_in rows.items)))) }
        ensures cycle { IfErr result (NamesCycle
            (unlagged durations.items (arcs_of_rows 1 (rows_in rows.items)))) }
        ensures only { IfErr result IsCycleOrMemory }
    {
        let arcs = Arcs::of_rows(alloc, durations, rows)?;
        ordered(alloc, arcs)
    }

    /// Returns the number of activities, 2–502.
    pub fn len(&self) -> usize
        ensures count { result ≡ count_of self.now }
        ensures sound { IsSound self.now }
    {
        self.arcs.len()
    }

    /// Returns the duration of activity `j` in whole time units.
    pub fn duration(&self, j: u32) -> u64
        requires { IsActivity self.now j }
        ensures value { result ≡ duration_of self.now j }
        ensures limit { result ≤ LONGEST_DURATION }
    {
        self.arcs.duration(j)
    }

    /// Returns the arcs in the order of the input, each as a pair of predecessor and successor.
    pub fn arcs(&self) -> &[(u32, u32)]
        ensures value { result.now ≡ self.now.arcs }
        // the lags beside the arcs are those that `lag` returns
        ensures lags { self.now.lags ≡ map (λ arc. lag_of self.now arc.0 arc.1) self.now.arcs }
    {
        self.arcs.arcs()
    }

    /// Returns the predecessors of activity `j` in rising order.
    pub fn preds(&self, j: u32) -> &[u32]
        requires { IsActivity self.now j }
        ensures exact { ListsRising (λ i. IsArc self.now i j) result.now }
        ensures activities { EachIndex result.now
            (λ k. IsActivity self.now (slice_index result.now k)) }
    {
        self.arcs.preds(j)
    }

    /// Returns the successors of activity `j` in rising order.
    pub fn succs(&self, j: u32) -> &[u32]
        requires { IsActivity self.now j }
        ensures exact { ListsRising (IsArc self.now j) result.now }
        ensures activities { EachIndex result.now
            (λ k. IsActivity self.now (slice_index result.now k)) }
    {
        self.arcs.succs(j)
    }

    /// Returns all activities, each after its predecessors. Each entry is the least activity that
    /// can come next.
    pub fn order(&self) -> &[u32]
        ensures least { IsLeastOrder self.now result.now }
        ensures topological { IsTopological self.now result.now }
        ensures activities { EachIndex result.now
            (λ k. IsActivity self.now (slice_index result.now k)) }
    {
        self.order.as_slice()
    }

    /// Returns the lag of the arc from `i` to `j`, or `None` if there is no such arc.
    pub fn lag(&self, i: u32, j: u32) -> Option<u64>
        ensures some { IfSome result (λ w. IsArc self.now i j × (w ≡ lag_of self.now i j)) }
        ensures none { IfNone result (IsArc self.now i j → ⊥) }
        ensures limit { lag_of self.now i j ≤ LONGEST_LAG }
    {
        self.arcs.lag(i, j)
    }

    /// Returns the lag of the arc from `i` to `j`, which must exist.
    pub fn lag_between(&self, i: u32, j: u32) -> u64
        requires { IsArc self.now i j }
        ensures value { result ≡ lag_of self.now i j }
        ensures limit { result ≤ LONGEST_LAG }
    {
        match self.lag(i, j) {
            Some(lag) => lag,
            None => unreachable!(),
        }
    }

    /// Returns the lags of the arcs to activity `j`, in the order of `preds(j)`.
    pub fn lags_into(&self, j: u32) -> &[u64]
        requires { IsActivity self.now j }
        ensures value { (row : List ℕ) → ListsRising (λ i. IsArc self.now i j) row →
            result.now ≡ map (λ i. lag_of self.now i j) row }
        ensures limit { EachIndex result.now (λ k. slice_index result.now k ≤ LONGEST_LAG) }
    {
        self.arcs.lags_into(j)
    }

    /// Sets the lag of the arc from `i` to `j`, in whole time units. Allocates nothing.
    ///
    /// Returns the error [`NetFault::NoArc`] if there is no such arc, then [`NetFault::BadLag`] if
    /// the lag is above 10,000.
    pub fn set_lag(&mut self, i: u32, j: u32, lag: u64) -> Result<(), NetFault>
        ensures sound { IsSound self.new }
        ensures ok { OnOk result (IsArc self.old i j × (lag ≤ LONGEST_LAG) ×
            (self.new ≡ with_lag self.old i j lag)) }
        ensures value { OnOk result (lag_of self.new i j ≡ lag) }
        ensures others { OnOk result ((h k : ℕ) → ((h ≡ i) × (k ≡ j) → ⊥) →
            lag_of self.new h k ≡ lag_of self.old h k) }
        ensures refused { IfErr result (IsLagFault self.old i j lag) }
        ensures err { OnErr result (self.new ≡ self.old) }
    {
        self.arcs.set_lag(i, j, lag)
    }
}
