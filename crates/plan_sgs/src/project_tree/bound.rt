//! Lower bound of a word.

ghost use Rattle.std.specs.Prelude.{◌≡◌, ◌<◌, cond, length, nat_lt};
ghost use Rattle.plan_cpm.specs.Lengths.{AreTails};
ghost use Rattle.plan_sgs.specs.Instances.{problem_of};
ghost use Rattle.plan_sgs.specs.PathTails.{longest_of};
ghost use Rattle.plan_sgs.specs.Problem.{greatest_below};
ghost use Rattle.plan_sgs.specs.ProjectWords as words;

use crate::instance::Instance;
use crate::project_tree::ProjectTree;

// Returns the greatest tail: the length of the longest path.
fn longest_path(instance: &Instance, tails: &[u64]) -> u64
    requires { AreTails instance.now.project.network tails.now }
    ensures { result ≡ longest_of instance.now.project.network }
{
    let mut longest: u64 = 0;
    for i in 0..instance.network().len() {
        longest = longest.max(tails[i]);
    }
    longest
}

// Returns the work on the resource at an index: the sum of duration times need of all activities.
fn work_on(instance: &Instance, k: usize) -> u64
    requires { k < length instance.now.capacities }
    ensures { result ≡ words.work_of (problem_of instance.now) k }
{
    let network = instance.network();
    let mut work: u64 = 0;
    for i in 0..network.len() {
        let activity = i as u32 + 1;
        work += network.duration(activity) * instance.needs(activity)[k];
    }
    work
}

// Returns the least number of instants in which a capacity can do the work.
fn busy_time(work: u64, cap: u64) -> u64
    ensures { result ≡ cond (nat_lt 0 cap) (words.rounded_up work cap) 0 }
{
    if cap == 0 {
        return 0;
    }
    work / cap + (work % cap).min(1)
}

// Returns the greatest busy time of a resource.
fn greatest_busy_time(instance: &Instance) -> u64
    ensures { result ≡ greatest_below (length instance.now.capacities)
        (words.busy_of (problem_of instance.now)) }
{
    let caps = instance.caps();
    let mut busiest: u64 = 0;
    for k in 0..caps.len() {
        busiest = busiest.max(busy_time(work_on(instance, k), caps[k]));
    }
    busiest
}

// Returns the part of the bound that is the same for all words.
pub(crate) fn least_of_all(instance: &Instance, tails: &[u64]) -> u64
    requires { AreTails instance.now.project.network tails.now }
    ensures { result ≡ words.least_of_all instance.now }
{
    longest_path(instance, tails).max(greatest_busy_time(instance))
}

impl<'a> ProjectTree<'a> {
    /// Returns the lower bound of the word, in whole time units: the greatest of the longest path,
    /// the busy time of each resource, and the sum of start and tail of each placed activity.
    pub fn bound(&self) -> u64
        ensures { result ≡ words.bound_of self.now.instance self.now.word }
    {
        self.least.max(self.reach())
    }
}
