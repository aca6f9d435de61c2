//! The requests section and the availabilities of an `.sm` text.

ghost use Rattle.std.specs.Prelude.{◌≤◌, ◌+◌, [], IfOk};
ghost use Rattle.plan_psplib.specs.Tokens.{Gives};
ghost use Rattle.plan_psplib.specs.Requests as spec;

use crate::sm::sections::Section;
use crate::text::{FileCode, ReadError, StreamWords, end, expect, next_duration, within};
use plan_net::LONGEST_SUM;
use std::alloc::Global;

/// The greatest amount of a resource.
pub const GREATEST_AMOUNT: u64 = 10_000;

/// The request of a job: its duration, and its need for each resource.
#[derive(Drop)]
struct Request {
    duration: u64,
    needs: Vec<u64>,
}

/// The requests of the jobs, in order: their durations and their needs.
#[derive(Drop)]
pub struct Requests {
    pub durations: Vec<u64>,
    pub needs: Vec<Vec<u64>>,
}

/// Returns the requests of the jobs in the section.
#[tactic(auto, unfolding(crate::specs::Requests::requests))]
pub fn read_requests(
    alloc: Global,
    words: &mut StreamWords<'_, Section>,
    jobs: u32,
    resources: u32,
) -> Result<Requests, ReadError>
    ensures { Gives spec.requests_of result (spec.requests jobs resources words.old) }
{
    let rows = request_rows(alloc, words, jobs, resources)?;
    end(words)?;
    Ok(rows)
}

/// Returns the availability of each resource.
#[tactic(auto, unfolding(crate::specs::Requests::availabilities))]
pub fn availabilities(
    alloc: Global,
    words: &mut StreamWords<'_, Section>,
    resources: u32,
) -> Result<Vec<u64>, ReadError>
    ensures { Gives (λ v. v.items) result (spec.availabilities resources words.old) }
{
    let amounts = amounts(alloc, words, resources)?;
    end(words)?;
    Ok(amounts)
}

// The rows of all jobs.
fn request_rows(
    alloc: Global,
    words: &mut StreamWords<'_, Section>,
    jobs: u32,
    resources: u32,
) -> Result<Requests, ReadError>
    ensures { Gives (λ rows. (spec.requests_of rows, words.new)) result
        (spec.request_rows_at resources jobs 1 (record { durations = []; needs = [] }) words.old) }
{
    let mut durations = Vec::new(alloc);
    let mut needs = Vec::new(alloc);
    let mut total = 0;
    for done in 0..jobs {
        let row = request_row(alloc, words, resources, done + 1, total)?;
        total += row.duration;
        durations.push(row.duration)?;
        needs.push(row.needs)?;
    }
    Ok(Requests { durations, needs })
}

// Reads the row of a job. `total` is the sum of the durations before it.
#[tactic(auto, unfolding(crate::specs::Requests::request_row_at))]
fn request_row(
    alloc: Global,
    words: &mut StreamWords<'_, Section>,
    resources: u32,
    job: u32,
    total: u64,
) -> Result<Request, ReadError>
    requires { total ≤ LONGEST_SUM }
    ensures exact { Gives (λ row. (spec.request_of row, words.new)) result
        (spec.request_row_at resources job total words.old) }
    ensures fits { IfOk result (λ row. total + row.duration ≤ LONGEST_SUM) }
{
    expect(words, u64::from(job), FileCode::JobOrder)?;
    expect(words, 1, FileCode::Modes)?;
    let duration = next_duration(words, total)?;
    let needs = amounts(alloc, words, resources)?;
    Ok(Request { duration, needs })
}

// Reads the next `count` amounts.
fn amounts(
    alloc: Global,
    words: &mut StreamWords<'_, Section>,
    count: u32,
) -> Result<Vec<u64>, ReadError>
    ensures { Gives (λ v. (v.items, words.new)) result (spec.amounts_at count [] words.old) }
{
    let mut amounts = Vec::with_capacity(alloc, count as usize)?;
    for _ in 0..count {
        let amount = within(words, GREATEST_AMOUNT)?;
        amounts.push(amount)?;
    }
    Ok(amounts)
}
