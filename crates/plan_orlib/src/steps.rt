//! The numbers of a shop: its jobs, its machines and the steps of each job.

ghost use Rattle.std.specs.Prelude.{◌≡◌, ◌≤◌, ◌+◌, [], IfOk, map};
ghost use Rattle.plan_psplib.specs.Tokens.{Gives, Reads, greatest_total};
ghost use Rattle.plan_orlib.specs.Shop.{shop_of, time_of};
ghost use Rattle.plan_orlib.specs.ShopText as spec;

use plan_psplib::{
    Fault, FileCode, Layout, ReadError, StreamWords, next_duration, next_limited, next_number,
};
use std::alloc::Global;

// The most jobs and machines of a shop.
const MOST_JOBS: u32 = 50;

const MOST_MACHINES: u32 = 20;

/// A step of a job: its machine, numbered from 0, and its processing time in time units.
#[derive(Clone, Copy, Debug, PartialEq, Eq, Hash)]
pub struct Step {
    pub machine: u32,
    pub time: u64,
}

/// The number of machines of a shop, and the steps of each job.
#[derive(Drop)]
pub struct Listing {
    pub machines: u32,
    pub jobs: Vec<Vec<Step>>,
}

// The steps of a job, and the sum of all times up to its last step.
#[derive(Drop)]
struct Row {
    steps: Vec<Step>,
    total: u64,
}

/// Reads the shop at the front of the words.
#[tactic(auto, unfolding(crate::specs::ShopText::shop_at))]
pub fn read_listing<L: Layout>(
    alloc: Global,
    words: &mut StreamWords<'_, L>,
) -> Result<Listing, ReadError>
    ensures { Gives shop_of result (spec.shop_at words.old) }
{
    let jobs = next_limited(words, 1, MOST_JOBS)?;
    let machines = next_limited(words, 1, MOST_MACHINES)?;
    let jobs = all_jobs(alloc, words, jobs, machines)?;
    Ok(Listing { machines, jobs })
}

// The steps of all jobs.
fn all_jobs<L: Layout>(
    alloc: Global,
    words: &mut StreamWords<'_, L>,
    jobs: u32,
    machines: u32,
) -> Result<Vec<Vec<Step>>, ReadError>
    ensures { Gives (λ rows. (map (λ row. row.items) rows.items, words.new)) result
        (spec.jobs_at machines jobs [] words.old) }
{
    let mut rows = Vec::new(alloc);
    let mut total = 0;
    for _ in 0..jobs {
        let row = next_job(alloc, words, machines, total)?;
        total = row.total;
        rows.push(row.steps)?;
    }
    Ok(rows)
}

// Reads the steps of a job. `before` is the sum of the times before it.
fn next_job<L: Layout>(
    alloc: Global,
    words: &mut StreamWords<'_, L>,
    machines: u32,
    before: u64,
) -> Result<Row, ReadError>
    requires { before ≤ greatest_total }
    ensures exact { Gives (λ row. (row.steps.items, words.new)) result
        (spec.steps_at machines before machines [] words.old) }
    ensures total { IfOk result (λ row. row.total ≡ before + time_of row.steps.items) }
    ensures fits { IfOk result (λ row. row.total ≤ greatest_total) }
{
    let mut steps = Vec::new(alloc);
    let mut total = before;
    for _ in 0..machines {
        let step = next_step(words, machines, total)?;
        total += step.time;
        steps.push(step)?;
    }
    Ok(Row { steps, total })
}

// Reads a step. `total` is the sum of the times before it.
#[tactic(auto, unfolding(crate::specs::ShopText::step_at))]
fn next_step<L: Layout>(
    words: &mut StreamWords<'_, L>,
    machines: u32,
    total: u64,
) -> Result<Step, Fault>
    requires { total ≤ greatest_total }
    ensures exact { Reads (λ step. (step, words.new)) result
        (spec.step_at machines total words.old) }
    ensures fits { IfOk result (λ step. total + step.time ≤ greatest_total) }
{
    let machine = machine(words, machines)?;
    let time = next_duration(words, total)?;
    Ok(Step { machine, time })
}

// Reads the number of one of the machines.
#[tactic(auto, unfolding(crate::specs::ShopText::machine_at))]
fn machine<L: Layout>(words: &mut StreamWords<'_, L>, machines: u32) -> Result<u32, Fault>
    ensures { Reads (λ n. (n, words.new)) result (spec.machine_at machines words.old) }
{
    let number = next_number(words)?;
    match u32::try_from(number.value) {
        Ok(n) if n < machines => Ok(n),
        _ => Err(Fault::new(FileCode::BadMachine, number.line)),
    }
}
