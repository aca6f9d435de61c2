//! The tree of a shop's words.

ghost use Rattle.std.specs.Prelude.{◌≡◌, ◌<◌, length, cond, nat_lt, IfOk};
ghost use Rattle.plan_shop.specs.Bound.{tail_of};
ghost use Rattle.plan_shop.specs.Trees.{AreTails};

mod bound;
mod choice;
mod letters;

use crate::shop::Shop;
use plan_orlib::Step;
use std::alloc::{AllocError, Global};
use std::marker::Model;

// A letter of the word and the state before its push: the end of its job, and the instant from
// which the machine of its step was free.
#[derive(Clone, Copy, Drop)]
struct Turn {
    letter: u32,
    end: u64,
    free: u64,
}

/// The tree of a shop's words, at one of its words. A letter is the number of a job, from 1, whose
/// next step is placed. Each push saves the state that it changes, and each pop restores it.
///
/// The words are those by which Giffler and Thompson (1960) generate active schedules. If the next
/// step of a job takes no time, the first such job is the only letter that may follow. Otherwise
/// the jobs may follow whose next step is on the machine of the step that would end first and would
/// start before that end.
#[derive(Drop)]
pub struct ShopTree<'a> {
    shop: &'a Shop,
    tails: Vec<u64>,
    done: Vec<u32>,
    ends: Vec<u64>,
    free: Vec<u64>,
    starts: Vec<u64>,
    turns: Vec<Turn>,
}

impl<'a> Model for ShopTree<'a> {
    ghost use Rattle.std.specs.Prelude.{vec_capacity};
    ghost use Rattle.plan_shop.specs.Trees.{Standing, word_of, IsTree};

    ghost Value = { Standing };

    ghost view = { λ t. record { shop = t.shop.now; word = word_of t.turns.items } };

    ghost invariant = { λ t.
        IsTree t.shop.now t.tails.items t.done.items t.ends.items t.free.items t.starts.items
        t.turns.items (vec_capacity t.turns) };
}

// Returns the instant from which a machine is free after a step that ends at `end`.
fn free_after(free: u64, end: u64, time: u64) -> u64
    ensures { result ≡ cond (nat_lt 0 time) end free }
{
    if time > 0 { end } else { free }
}

// Returns the total time of the steps after a step in its job.
fn tail(shop: &Shop, i: u32) -> u64
    requires { i < length shop.now.steps }
    ensures { result ≡ tail_of shop.now i }
{
    let machines = shop.machines();
    let mut total = 0;
    for later in 1..machines - i % machines {
        total += shop.step(i + later).time;
    }
    total
}

// Returns the tails of all steps.
fn tails(alloc: Global, shop: &Shop) -> Result<Vec<u64>, AllocError>
    ensures { IfOk result (λ tails. AreTails shop.now tails.items) }
{
    let mut tails = Vec::new(alloc);
    for i in 0..shop.jobs() * shop.machines() {
        tails.push(tail(shop, i))?;
    }
    Ok(tails)
}

impl<'a> ShopTree<'a> {
    ghost use Rattle.std.specs.Prelude.{◌≡◌, ℕ, ◌≤◌, ◌<◌, List, [], ◌∷◌, ◌++◌, true, length, max};
    ghost use Rattle.std.specs.Prelude.{Contains, IfOk, IsOk, OnOk, OnErr};
    ghost use Rattle.plan_shop.specs.Words as words;
    ghost use Rattle.plan_shop.specs.Shop as flat;
    ghost use Rattle.plan_shop.specs.Trees as spec;
    ghost use Rattle.plan_shop.specs.Docs.{IsSmallShop};

    /// Returns the tree of a shop at the empty word.
    pub fn new(alloc: Global, shop: &'a Shop) -> Result<ShopTree<'a>, AllocError>
        ensures { IfOk result (λ tree. tree ≡ spec.standing shop.now []) }
    {
        let jobs = shop.jobs() as usize;
        let machines = shop.machines() as usize;
        Ok(ShopTree {
            shop,
            tails: tails(alloc, shop)?,
            done: vec![in alloc; 0; jobs]?,
            ends: vec![in alloc; 0; jobs]?,
            free: vec![in alloc; 0; machines]?,
            starts: vec![in alloc; 0; jobs * machines]?,
            turns: Vec::with_capacity(alloc, jobs * machines)?,
        })
    }

    // Tests whether a job, numbered from 0, has an unplaced step.
    fn has_next(&self, job: u32) -> bool
        requires { job < self.now.shop.jobs }
        ensures { result ≡ words.has_next self.now.shop (spec.placed self.now) job }
    {
        self.done[job as usize] < self.shop.machines()
    }

    // Returns the flat number of the next step of a job.
    fn next_number(&self, job: u32) -> u32
        requires job { job < self.now.shop.jobs }
        requires next { words.has_next self.now.shop (spec.placed self.now) job ≡ true }
        ensures value { result ≡ words.next_step self.now.shop (spec.placed self.now) job }
        ensures step { result < flat.count_steps self.now.shop }
    {
        job * self.shop.machines() + self.done[job as usize]
    }

    // Returns the next step of a job.
    fn next_step(&self, job: u32) -> Step
        requires job { job < self.now.shop.jobs }
        requires next { words.has_next self.now.shop (spec.placed self.now) job ≡ true }
        ensures machine { result.machine
            ≡ flat.machine_of self.now.shop
            (words.next_step self.now.shop (spec.placed self.now) job) }
        ensures time { result.time
            ≡ flat.time_of self.now.shop
            (words.next_step self.now.shop (spec.placed self.now) job) }
        ensures on { result.machine < self.now.shop.machines }
        ensures short { result.time ≤ 10000 }
    {
        self.shop.step(self.next_number(job))
    }

    // Returns the first instant from `at` on at which the machine is free for a step.
    fn start_after(&self, at: u64, step: Step) -> u64
        requires { step.machine < self.now.shop.machines }
        ensures value { result
            ≡ words.raised step.time at
            (words.machine_free self.now.shop (spec.placed self.now) step.machine) }
        ensures within { result ≤ max at 10000000 }
    {
        if step.time == 0 {
            at
        } else {
            at.max(self.free[step.machine as usize])
        }
    }

    // Returns the head of the next step of a job: its earliest start after the placed steps.
    fn ready(&self, job: u32) -> u64
        requires job { job < self.now.shop.jobs }
        requires next { words.has_next self.now.shop (spec.placed self.now) job ≡ true }
        ensures value { result ≡ words.ready self.now.shop (spec.placed self.now) job }
        ensures within { result ≤ 10000000 }
    {
        self.start_after(self.ends[job as usize], self.next_step(job))
    }

    /// Appends a letter to the word. Never fails, because [`ShopTree::new`] allocates the memory
    /// for all words.
    pub fn push(&mut self, job: u32) -> Result<(), AllocError>
        requires { Contains (words.letters_after self.old.shop (spec.placed self.old)) job }
        ensures ok { OnOk result (self.new
            ≡ spec.standing self.old.shop (self.old.word ++ job ∷ [])) }
        ensures err { OnErr result (self.new ≡ self.old) }
        ensures succeeds { IsOk result }
    {
        let place = job - 1;
        let i = self.next_number(place) as usize;
        let step = self.next_step(place);
        let start = self.ready(place);
        let end = start + step.time;
        let (place, machine) = (place as usize, step.machine as usize);
        let free = self.free[machine];
        self.turns.push(Turn {
            letter: job,
            end: self.ends[place],
            free,
        })?;
        self.done[place] += 1;
        self.ends[place] = end;
        self.free[machine] = free_after(free, end, step.time);
        self.starts[i] = start;
        Ok(())
    }

    /// Removes the last letter of the word. Allocates nothing.
    pub fn pop(&mut self)
        requires { 0 < length self.old.word }
        ensures shop { self.new.shop ≡ self.old.shop }
        ensures word { (u : List ℕ) (a : ℕ) → self.old.word ≡ u ++ a ∷ [] → self.new.word ≡ u }
    {
        let shop = self.shop;
        let Some(turn) = self.turns.pop() else {
            return;
        };
        let place = turn.letter - 1;
        let done = self.done[place as usize] - 1;
        let step = shop.step(place * shop.machines() + done);
        let place = place as usize;
        self.done[place] = done;
        self.ends[place] = turn.end;
        self.free[step.machine as usize] = turn.free;
    }

    /// Tests whether all steps are placed.
    pub fn full(&self) -> bool
        ensures value { result ≡ words.is_full self.now.shop (spec.placed self.now) }
        ensures shop { IsSmallShop self.now.shop }
        ensures word { words.IsWord self.now.shop self.now.word }
    {
        for job in 0..self.shop.jobs() {
            if self.has_next(job) {
                return false;
            }
        }
        true
    }

    /// Returns the start of a placed step by its flat number.
    pub fn start(&self, i: u32) -> u64
        requires step { i < flat.count_steps self.now.shop }
        requires placed { words.is_placed self.now.shop (spec.placed self.now) i ≡ true }
        ensures value { result ≡ words.start_in (spec.placed self.now) i }
        ensures within { result ≤ 10000000 }
    {
        self.starts[i as usize]
    }

    /// Returns the makespan of a full word, in whole time units.
    pub fn makespan(&self) -> u64
        requires { words.is_full self.now.shop (spec.placed self.now) ≡ true }
        ensures { result ≡ words.makespan_of self.now.shop (spec.placed self.now) }
    {
        let mut makespan: u64 = 0;
        for i in 0..self.shop.jobs() * self.shop.machines() {
            makespan = makespan.max(self.start(i) + self.shop.step(i).time);
        }
        makespan
    }
}
