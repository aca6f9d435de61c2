//! Choice of a letter by a rule, and the schedule of a full word.

ghost use Rattle.std.specs.Prelude.{◌≡◌, ◌<◌, All, true, IfOk, MatchOption};
ghost use Rattle.plan_profile.specs.Usage.{IsInTime};
ghost use Rattle.plan_shop.specs.Names as names;
ghost use Rattle.plan_shop.specs.Rules as rules;
ghost use Rattle.plan_shop.specs.Words as words;
ghost use Rattle.plan_shop.specs.Trees as spec;

use crate::rule::ShopRule;
use crate::tree::ShopTree;
use plan_sgs::Schedule;
use std::alloc::{AllocError, Global};

// Tests whether a rule puts a key before that of the best letter so far.
fn comes_first(rule: ShopRule, key: u64, best: Option<(u32, u64)>) -> bool
    ensures { MatchOption best (result ≡ true) (λ b. result ≡ names.comes_before rule key b.1) }
{
    match best {
        None => true,
        Some((_, other)) => match rule {
            ShopRule::ShortestTime | ShopRule::FirstCome => key < other,
            ShopRule::MostWorkRemaining => other < key,
        },
    }
}

impl<'a> ShopTree<'a> {
    // Returns the key by which a rule compares a job that has a next step.
    fn key(&self, rule: ShopRule, job: u32) -> u64
        requires job { job < self.now.shop.jobs }
        requires next { words.has_next self.now.shop (spec.placed self.now) job ≡ true }
        ensures { result ≡ names.key_of rule self.now.shop (spec.placed self.now) job }
    {
        match rule {
            ShopRule::ShortestTime => self.next_step(job).time,
            ShopRule::MostWorkRemaining => self.time_left(job),
            ShopRule::FirstCome => self.ready(job),
        }
    }

    // Returns the total time of the unplaced steps of a job.
    fn time_left(&self, job: u32) -> u64
        requires job { job < self.now.shop.jobs }
        requires next { words.has_next self.now.shop (spec.placed self.now) job ≡ true }
        ensures { result ≡ rules.time_left self.now.shop (spec.placed self.now) job }
    {
        self.next_step(job).time + self.tails[self.next_number(job) as usize]
    }

    // Returns the letter that a rule chooses among those that may follow.
    pub(crate) fn choice(&self, rule: ShopRule, letters: &[u32]) -> Option<u32>
        requires { letters.now ≡ words.letters_after self.now.shop (spec.placed self.now) }
        ensures { result ≡ names.letter_by rule self.now.shop (spec.placed self.now) }
    {
        let mut best: Option<(u32, u64)> = None;
        for letter in letters {
            let key = self.key(rule, *letter - 1);
            if comes_first(rule, key, best) {
                best = Some((*letter, key));
            }
        }
        match best {
            Some((letter, _)) => Some(letter),
            None => None,
        }
    }

    // Returns the starts of a full word in flat order.
    fn starts(&self, alloc: Global) -> Result<Vec<u64>, AllocError>
        requires { words.is_full self.now.shop (spec.placed self.now) ≡ true }
        ensures starts { IfOk result (λ starts.
            starts.items ≡ words.starts_of self.now.shop (spec.placed self.now)) }
        ensures within { IfOk result (λ starts. All IsInTime starts.items) }
    {
        let mut starts = Vec::new(alloc);
        for i in 0..self.shop.jobs() * self.shop.machines() {
            starts.push(self.start(i))?;
        }
        Ok(starts)
    }

    /// Returns the schedule of a full word: starts in flat order and the makespan, in whole time
    /// units.
    pub fn schedule(&self, alloc: Global) -> Result<Schedule, AllocError>
        requires { words.is_full self.now.shop (spec.placed self.now) ≡ true }
        ensures starts { IfOk result (λ s.
            s.starts.items ≡ words.starts_of self.now.shop (spec.placed self.now)) }
        ensures makespan { IfOk result (λ s.
            s.makespan ≡ words.makespan_of self.now.shop (spec.placed self.now)) }
        ensures within { IfOk result (λ s. All IsInTime s.starts.items) }
    {
        Ok(Schedule {
            starts: self.starts(alloc)?,
            makespan: self.makespan(),
        })
    }
}
