//! Lower bound of a word.

ghost use Rattle.std.specs.Prelude.{◌≡◌, ◌+◌, ◌*◌, ◌<◌, suc, cond, nat_eq, nat_lt};
ghost use Rattle.plan_sgs.specs.Problem.{greatest_below};
ghost use Rattle.plan_shop.specs.Bound as bounds;
ghost use Rattle.plan_shop.specs.Trees as spec;

use crate::tree::ShopTree;

// The most machines of a shop.
const MOST_MACHINES: usize = 20;

// An instant beyond every head and tail.
const FAR: u64 = 1_000_000_000;

// For each machine the least head, the total time and the least tail of its unplaced steps of
// positive time. If a machine has no such step, its time is 0 and its head and tail are `FAR`.
#[derive(Drop)]
struct Pending {
    heads: [u64; MOST_MACHINES],
    times: [u64; MOST_MACHINES],
    tails: [u64; MOST_MACHINES],
}

// Returns the bound of the pending steps of a machine.
fn machine_bound(head: u64, times: u64, tail: u64) -> u64
    requires { 0 < times → head + times + tail < 1000000000 }
    ensures { result ≡ cond (nat_eq times 0) 0 (head + times + tail) }
{
    if times == 0 { 0 } else { head + times + tail }
}

impl<'a> ShopTree<'a> {
    // Returns the bound of a job.
    fn job_bound(&self, job: u32) -> u64
        requires { job < self.now.shop.jobs }
        ensures { result ≡ bounds.job_bound self.now.shop (spec.placed self.now) job }
    {
        if !self.has_next(job) {
            return self.ends[job as usize];
        }
        let tail = self.tails[self.next_number(job) as usize];
        self.ready(job) + self.next_step(job).time + tail
    }

    // Adds the pending steps of a job to their machines.
    fn gather(&self, job: u32, pending: &mut Pending)
        requires job { job < self.now.shop.jobs }
        requires before { spec.IsGathered self.now (job * self.now.shop.machines) pending.old }
        ensures { spec.IsGathered self.now (suc job * self.now.shop.machines) pending.new }
    {
        let machines = self.shop.machines();
        let tails = self.tails.as_slice();
        let free = self.free.as_slice();
        let mut end = self.ends[job as usize];
        for place in self.done[job as usize]..machines {
            let i = job * machines + place;
            let step = self.shop.step(i);
            if step.time > 0 {
                let machine = step.machine as usize;
                let head = end.max(free[machine]);
                pending.heads[machine] = pending.heads[machine].min(head);
                pending.times[machine] += step.time;
                pending.tails[machine] = pending.tails[machine].min(tails[i as usize]);
                end = head + step.time;
            }
        }
    }

    // Adds the pending steps of all jobs to their machines.
    fn gather_all(&self, pending: &mut Pending)
        requires { spec.IsGathered self.now 0 pending.old }
        ensures { spec.IsGathered self.now
            (self.now.shop.jobs * self.now.shop.machines) pending.new }
    {
        for job in 0..self.shop.jobs() {
            self.gather(job, pending);
        }
    }

    // Returns the greatest bound of a job.
    fn greatest_job_bound(&self) -> u64
        ensures { result
            ≡ greatest_below self.now.shop.jobs
            (bounds.job_bound self.now.shop (spec.placed self.now)) }
    {
        let mut greatest: u64 = 0;
        for job in 0..self.shop.jobs() {
            greatest = greatest.max(self.job_bound(job));
        }
        greatest
    }

    /// Returns the lower bound of the word, in whole time units: the greatest bound of a job or
    /// machine. The bound of a job is its earliest possible end. The bound of a machine is the sum
    /// of the least head, the total time and the least tail of its unplaced steps of positive time
    /// (Lageweg, Lenstra and Rinnooy Kan 1977).
    pub fn bound(&self) -> u64
        ensures { result ≡ bounds.bound_of self.now.shop (spec.placed self.now) }
    {
        let machines = self.shop.machines();
        let mut pending = Pending {
            heads: [FAR; MOST_MACHINES],
            times: [0; MOST_MACHINES],
            tails: [FAR; MOST_MACHINES],
        };
        self.gather_all(&mut pending);
        let mut greatest: u64 = self.greatest_job_bound();
        for machine in 0..machines {
            let m = machine as usize;
            greatest = greatest.max(machine_bound(
                pending.heads[m],
                pending.times[m],
                pending.tails[m],
            ));
        }
        greatest
    }

    // Tests whether the bound of each job is below a limit.
    fn jobs_end_before(&self, limit: u64) -> bool
        requires { 0 < limit }
        ensures { result ≡ nat_lt (greatest_below self.now.shop.jobs
            (bounds.job_bound self.now.shop (spec.placed self.now))) limit }
    {
        for job in 0..self.shop.jobs() {
            if self.job_bound(job) >= limit {
                return false;
            }
        }
        true
    }

    // Tests whether the bound of each machine is below a limit.
    fn machines_end_before(&self, limit: u64) -> bool
        requires { 0 < limit }
        ensures { result ≡ nat_lt (greatest_below self.now.shop.machines (λ m.
            bounds.bound_of_pending self.now.shop (spec.placed self.now)
            (bounds.pending self.now.shop (spec.placed self.now) m))) limit }
    {
        let machines = self.shop.machines();
        let mut pending = Pending {
            heads: [FAR; MOST_MACHINES],
            times: [0; MOST_MACHINES],
            tails: [FAR; MOST_MACHINES],
        };
        self.gather_all(&mut pending);
        for machine in 0..machines {
            let m = machine as usize;
            let bound = machine_bound(pending.heads[m], pending.times[m], pending.tails[m]);
            if bound >= limit {
                return false;
            }
        }
        true
    }

    /// Tests whether the lower bound of the word is below a limit, in whole time units. Stops at
    /// the first job or machine whose bound isn't.
    pub fn is_open(&self, limit: u64) -> bool
        ensures { result
            ≡ nat_lt (bounds.bound_of self.now.shop (spec.placed self.now)) limit }
    {
        if limit == 0 {
            return false;
        }
        if !self.jobs_end_before(limit) {
            return false;
        }
        self.machines_end_before(limit)
    }
}
