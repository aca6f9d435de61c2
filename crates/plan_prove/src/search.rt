//! Sequence of searches between a lower bound and the best schedule.

ghost use Rattle.std.specs.Prelude.{◌≡◌, ◌+◌, ◌≤◌, IfOk};
ghost use Rattle.plan_prove.specs.Graphs.{NoneIsBelow};
ghost use Rattle.plan_prove.specs.States.{AreRefuted};
ghost use Rattle.plan_prove.specs.Progress.{HearsKnown, HearsNothing, HearsTruth};
ghost use Rattle.plan_prove.specs.Proofs as spec;
ghost use Rattle.plan_prove.specs.declared.refutation.Outcome.TheVariants.{Refuted, Stopped};

use crate::course::Course;
use crate::graph::{Graph, graph_of};
use crate::proof::Proof;
use crate::queue::Queue;
use crate::refutation::{Outcome, first_states, refute};
use crate::state::State;
use crate::watcher::Watcher;
use plan_active::active_shop_schedule;
use plan_shop::Shop;
use std::alloc::{AllocError, Global};
use std::mem;

/// The greatest number of short searches with the same number of nodes.
const MOST_HALVINGS: u32 = 64;

/// The number of nodes between two reports to a watcher, which can then end the search. It can also
/// end the search after each 200,000 units of work ([`crate::work::Work`]).
const NODES_BETWEEN: u64 = 1_000;

/// A search: the graph of a shop, its queue, the proof so far and its course. It counts the nodes
/// that may be visited in all, those that are left, and those until the next report to a watcher.
/// The search is late if the watcher ended it.
#[derive(Drop)]
pub struct Search {
    pub graph: Graph,
    pub queue: Queue,
    pub proof: Proof,
    pub most: u64,
    pub left: u64,
    pub course: Course,
    until_told: u64,
    is_late: bool,
}

// Returns the limit of the next search: a hundredth below the best makespan, and at most half way
// to the lower bound.
fn target(best: u64, lower: u64) -> u64 {
    let gap = best.saturating_sub(lower);
    best - (best / 100).min(gap / 2)
}

impl Search {
    /// Returns a search of at most `nodes` nodes that starts from a proof and continues a course.
    pub fn new(
        alloc: Global,
        shop: &Shop,
        proof: Proof,
        nodes: u64,
        mut course: Course,
    ) -> Result<Search, AllocError>
        requires { spec.IsProofOf shop.now proof }
        ensures search { IfOk result (spec.IsSearchOf shop.now) }
        ensures most { IfOk result (λ search. search.most ≡ nodes) }
        ensures proof { IfOk result (λ search. search.proof ≡ proof) }
    {
        let graph = graph_of(alloc, shop)?;
        let weights = mem::replace(&mut course.weights, Vec::new(alloc));
        let queue = Queue::new(alloc, &graph, weights)?;
        Ok(Search {
            graph,
            queue,
            proof,
            most: nodes,
            left: nodes,
            course,
            until_told: NODES_BETWEEN,
            is_late: false,
        })
    }

    // Reports to the watcher, and asks it whether the search should end.
    fn report<W: Watcher>(&mut self, watcher: &mut W)
        requires { self.old.left ≤ self.old.most }
        ensures taken { spec.HasTaken self.old self.new }
        ensures left { self.new.left ≡ self.old.left }
        ensures told { HearsKnown self.old (W.was_told watcher.old) (W.was_told watcher.new) }
    {
        let makespan = self.proof.schedule.makespan;
        watcher.tell(makespan, self.proof.lower, self.most - self.left);
        self.ask(watcher);
    }

    // Asks the watcher whether the search should end.
    fn ask<W: Watcher>(&mut self, watcher: &mut W)
        ensures taken { spec.HasTaken self.old self.new }
        ensures left { self.new.left ≡ self.old.left }
        ensures told { HearsNothing (W.was_told watcher.old) (W.was_told watcher.new) }
    {
        self.queue.restart_work();
        self.is_late = watcher.is_late();
    }

    // Counts used nodes, and reports to the watcher if it is time to. If the clock is due, it asks
    // the watcher.
    fn count<W: Watcher>(&mut self, used: u64, watcher: &mut W)
        requires used { used ≤ self.old.left }
        requires left { self.old.left ≤ self.old.most }
        ensures taken { spec.HasTaken self.old self.new }
        ensures left { self.new.left + used ≡ self.old.left }
        ensures told { HearsKnown self.old (W.was_told watcher.old) (W.was_told watcher.new) }
    {
        self.left -= used;
        self.until_told = self.until_told.saturating_sub(used);
        if self.until_told == 0 {
            self.until_told = NODES_BETWEEN;
            self.report(watcher);
        } else if self.queue.is_due() {
            self.ask(watcher);
        }
    }

    // Continues a search of the waiting states until it has an outcome, has used the granted nodes,
    // or it is time to report. If the watcher ends the search, no more nodes are granted.
    fn advance<W: Watcher>(
        &mut self,
        alloc: Global,
        limit: u32,
        waiting: &mut Vec<State>,
        granted: &mut u64,
        watcher: &mut W,
    ) -> Result<Outcome, AllocError>
        requires granted { granted.old ≤ self.old.left }
        requires left { self.old.left ≤ self.old.most }
        ensures refuted { IfOk result (λ outcome.
            outcome ≡ Refuted → AreRefuted self.old.graph limit waiting.old.items) }
        ensures stopped { IfOk result (λ outcome.
            outcome ≡ Stopped → AreRefuted self.old.graph limit waiting.new.items
            → AreRefuted self.old.graph limit waiting.old.items) }
        ensures taken { spec.HasTaken self.old self.new }
        ensures granted { granted.new ≤ self.new.left }
        ensures told { HearsKnown self.old (W.was_told watcher.old) (W.was_told watcher.new) }
    {
        let part = (*granted).min(self.until_told);
        let mut unused = part;
        let starts = &self.proof.schedule.starts;
        let outcome = refute(
            alloc,
            &self.graph,
            limit,
            waiting,
            &mut self.queue,
            starts,
            &mut unused,
        )?;
        *granted -= part - unused;
        self.count(part - unused, watcher);
        if self.is_late {
            *granted = 0;
        }
        Ok(outcome)
    }

    // Returns the outcome of a search for a schedule below a limit, with at most the allowed nodes.
    fn outcome<W: Watcher>(
        &mut self,
        alloc: Global,
        limit: u32,
        allowed: u64,
        watcher: &mut W,
    ) -> Result<Outcome, AllocError>
        requires { self.old.left ≤ self.old.most }
        ensures refuted { IfOk result (λ outcome.
            outcome ≡ Refuted → NoneIsBelow self.old.graph limit) }
        ensures taken { spec.HasTaken self.old self.new }
        ensures told { HearsKnown self.old (W.was_told watcher.old) (W.was_told watcher.new) }
    {
        let mut waiting = first_states(alloc, &self.graph)?;
        let mut granted = allowed.min(self.left);
        for _part in 0..granted {
            match self.advance(alloc, limit, &mut waiting, &mut granted, watcher)? {
                Outcome::Stopped if granted > 0 => {}
                outcome => return Ok(outcome),
            }
        }
        Ok(Outcome::Stopped)
    }

    // Searches once for a schedule below a target. Returns whether that improved the proof.
    fn attempt<W: Watcher>(
        &mut self,
        alloc: Global,
        shop: &Shop,
        target: u64,
        allowed: u64,
        watcher: &mut W,
    ) -> Result<bool, AllocError>
        requires { spec.IsSearchOf shop.now self.old }
        ensures search { IfOk result (λ _. spec.IsSearchOf shop.now self.new) }
        ensures no_worse { IfOk result (λ _. spec.IsNoWorse self.old.proof self.new.proof) }
        ensures most { self.new.most ≡ self.old.most }
        ensures told { HearsTruth shop.now self.old.most (W.was_told watcher.old)
            (W.was_told watcher.new) }
    {
        let Ok(limit) = u32::try_from(target) else {
            return Ok(false);
        };
        let outcome = self.outcome(alloc, limit, allowed, watcher)?;
        match outcome {
            Outcome::Stopped => Ok(false),
            Outcome::Refuted => {
                self.proof.lower = self.proof.lower.max(target);
                Ok(true)
            }
            Outcome::Leaf(heads) => improve(alloc, shop, &heads, &mut self.proof),
        }
    }

    // Whether no nodes are left, the turn is over, or the watcher ended the search.
    fn is_over(&self) -> bool {
        self.left == 0 || self.is_late || self.most.saturating_sub(self.left) >= self.course.turn
    }

    // Halves the gap between the lower bound and the best makespan by searches of `allowed` nodes
    // each. After a search without an outcome the next target is lower.
    fn halve<W: Watcher>(
        &mut self,
        alloc: Global,
        shop: &Shop,
        allowed: u64,
        watcher: &mut W,
    ) -> Result<(), AllocError>
        requires { spec.IsSearchOf shop.now self.old }
        ensures search { IfOk result (λ _. spec.IsSearchOf shop.now self.new) }
        ensures no_worse { IfOk result (λ _. spec.IsNoWorse self.old.proof self.new.proof) }
        ensures most { self.new.most ≡ self.old.most }
        ensures told { HearsTruth shop.now self.old.most (W.was_told watcher.old)
            (W.was_told watcher.new) }
    {
        for _halving in 0..MOST_HALVINGS {
            let above = self.course.above.min(self.proof.schedule.makespan);
            if self.proof.lower >= above || self.is_over() {
                break;
            }
            let target = above - (above - self.proof.lower) / 2;
            if !self.attempt(alloc, shop, target, allowed, watcher)? {
                self.course.above = target.saturating_sub(1);
            }
        }
        Ok(())
    }

    // Continues a halving by searches of `allowed` nodes each, unless it is done.
    fn halve_once<W: Watcher>(
        &mut self,
        alloc: Global,
        shop: &Shop,
        allowed: u64,
        watcher: &mut W,
    ) -> Result<(), AllocError>
        requires { spec.IsSearchOf shop.now self.old }
        ensures search { IfOk result (λ _. spec.IsSearchOf shop.now self.new) }
        ensures no_worse { IfOk result (λ _. spec.IsNoWorse self.old.proof self.new.proof) }
        ensures most { self.new.most ≡ self.old.most }
        ensures told { HearsTruth shop.now self.old.most (W.was_told watcher.old)
            (W.was_told watcher.new) }
    {
        if self.course.halving == allowed {
            self.halve(alloc, shop, allowed, watcher)?;
            if !self.is_over() {
                self.course.end_halving();
            }
        }
        Ok(())
    }

    // Searches below a target. If that has no outcome, it searches right below the best makespan
    // with a third more nodes and the weights of the first search. Returns the number of nodes that
    // are allowed next.
    fn step_down<W: Watcher>(
        &mut self,
        alloc: Global,
        shop: &Shop,
        allowed: u64,
        watcher: &mut W,
    ) -> Result<u64, AllocError>
        requires { spec.IsSearchOf shop.now self.old }
        ensures search { IfOk result (λ _. spec.IsSearchOf shop.now self.new) }
        ensures no_worse { IfOk result (λ _. spec.IsNoWorse self.old.proof self.new.proof) }
        ensures most { self.new.most ≡ self.old.most }
        ensures told { HearsTruth shop.now self.old.most (W.was_told watcher.old)
            (W.was_told watcher.new) }
    {
        let (best, lower) = (self.proof.schedule.makespan, self.proof.lower);
        if self.attempt(alloc, shop, target(best, lower), allowed, watcher)? {
            return Ok(allowed);
        }
        let more = allowed.saturating_add(allowed / 3);
        self.attempt(alloc, shop, best, more, watcher)?;
        Ok(more)
    }

    // Searches below the best makespan until it is the lower bound or the search is over.
    fn close<W: Watcher>(
        &mut self,
        alloc: Global,
        shop: &Shop,
        watcher: &mut W,
    ) -> Result<(), AllocError>
        requires { spec.IsSearchOf shop.now self.old }
        ensures search { IfOk result (λ _. spec.IsSearchOf shop.now self.new) }
        ensures no_worse { IfOk result (λ _. spec.IsNoWorse self.old.proof self.new.proof) }
        ensures most { self.new.most ≡ self.old.most }
        ensures told { HearsTruth shop.now self.old.most (W.was_told watcher.old)
            (W.was_told watcher.new) }
    {
        for _step in 0..self.left {
            if self.proof.lower >= self.proof.schedule.makespan || self.is_over() {
                break;
            }
            let allowed = self.course.patience;
            self.course.patience = self.step_down(alloc, shop, allowed, watcher)?;
        }
        Ok(())
    }

    /// Halves the gap with more and more nodes, and then searches below the best makespan.
    pub fn run<W: Watcher>(
        &mut self,
        alloc: Global,
        shop: &Shop,
        watcher: &mut W,
    ) -> Result<(), AllocError>
        requires { spec.IsSearchOf shop.now self.old }
        ensures search { IfOk result (λ _. spec.IsSearchOf shop.now self.new) }
        ensures no_worse { IfOk result (λ _. spec.IsNoWorse self.old.proof self.new.proof) }
        ensures most { self.new.most ≡ self.old.most }
        ensures told { HearsTruth shop.now self.old.most (W.was_told watcher.old)
            (W.was_told watcher.new) }
    {
        self.halve_once(alloc, shop, 1, watcher)?;
        self.halve_once(alloc, shop, 100, watcher)?;
        self.halve_once(alloc, shop, 10_000, watcher)?;
        self.close(alloc, shop, watcher)
    }
}

// Keeps the active schedule of the heads of a leaf if it is shorter. Returns whether it is.
fn improve(alloc: Global, shop: &Shop, heads: &[u32], proof: &mut Proof) -> Result<bool, AllocError>
    requires { spec.IsProofOf shop.now proof.old }
    ensures proof { IfOk result (λ _. spec.IsProofOf shop.now proof.new) }
    ensures no_worse { IfOk result (λ _. spec.IsNoWorse proof.old proof.new) }
{
    let schedule = active_shop_schedule(alloc, shop, heads)?;
    let is_shorter = schedule.makespan < proof.schedule.makespan;
    if is_shorter {
        proof.schedule = schedule;
    }
    Ok(is_shorter)
}
