//! Letters that may follow a word.

ghost use Rattle.std.specs.Prelude.{◌≡◌, ◌<◌, [], ◌++◌, OnOk};
ghost use Rattle.plan_shop.specs.Words as words;
ghost use Rattle.plan_shop.specs.Trees as spec;

use crate::tree::ShopTree;
use std::alloc::AllocError;

// The rule for the letters that may follow a word: a job whose next step takes no time, or else the
// job whose next step would end first, with that end.
#[derive(Drop)]
enum Front {
    AtOnce(u32),
    ToEnd(u32, u64),
    /// All steps are placed.
    Full,
}

impl<'a> ShopTree<'a> {
    // Returns what decides the letters that may follow.
    fn front(&self) -> Front
        ensures front { spec.IsFront self.now result }
        ensures few { self.now.shop.jobs < 100 }
    {
        let mut first: Option<(u32, u64)> = None;
        for job in 0..self.shop.jobs() {
            if self.has_next(job) {
                let time = self.next_step(job).time;
                if time == 0 {
                    return Front::AtOnce(job);
                }
                let end = self.ready(job) + time;
                first = Some(sooner(first, (job, end)));
            }
        }
        match first {
            Some((job, end)) => Front::ToEnd(job, end),
            None => Front::Full,
        }
    }

    // Tests whether the next step of a job is on a machine and could start before an instant.
    fn is_rival(&self, job: u32, machine: u32, end: u64) -> bool
        requires { job < self.now.shop.jobs }
        ensures { result ≡ spec.is_rival self.now machine end job }
    {
        self.has_next(job) && self.next_step(job).machine == machine && self.ready(job) < end
    }

    // Appends the letters of the jobs that compete with the one that would end first.
    fn rivals(&self, first: u32, end: u64, list: &mut Vec<u32>) -> Result<(), AllocError>
        requires zeros { words.with_zero self.now.shop (spec.placed self.now) ≡ [] }
        requires first { spec.IsFirstToEnd self.now (first, end) }
        requires few { self.now.shop.jobs < 100 }
        ensures { OnOk result (list.new.items ≡ list.old.items
            ++ words.letters_after self.now.shop (spec.placed self.now)) }
    {
        let machine = self.next_step(first).machine;
        for job in 0..self.shop.jobs() {
            if self.is_rival(job, machine, end) {
                list.push(job + 1)?;
            }
        }
        Ok(())
    }

    /// Appends the letters that may follow to the list, so that one list can serve all words of a
    /// search. If memory runs out, only some of them may have been appended.
    pub fn letters(&self, list: &mut Vec<u32>) -> Result<(), AllocError>
        ensures { OnOk result (list.new.items ≡ list.old.items
            ++ words.letters_after self.now.shop (spec.placed self.now)) }
    {
        match self.front() {
            Front::AtOnce(job) => {
                list.push(job + 1)?;
                Ok(())
            }
            Front::ToEnd(first, end) => self.rivals(first, end, list),
            Front::Full => Ok(()),
        }
    }
}

// Returns the one of two jobs that ends first, with its end; the first one if both end together.
fn sooner(first: Option<(u32, u64)>, next: (u32, u64)) -> (u32, u64)
    ensures { spec.IsSooner first next result }
{
    match first {
        Some((other, least)) if least <= next.1 => (other, least),
        _ => next,
    }
}
