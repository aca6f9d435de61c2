//! The precedence section of an `.sm` text.

ghost use Rattle.std.specs.Prelude.{◌≡◌, ◌<◌, ◌≤◌, ◌+◌, ◌++◌, ◌∷◌, List, ℕ, [], length, IfOk, OnOk};
ghost use Rattle.plan_net.specs.Successors.{AreRows, arcs_of_rows, rows_in};
ghost use Rattle.plan_psplib.specs.Tokens.{Gives, Reads, line_number};
ghost use Rattle.plan_psplib.specs.Precedence as spec;

use crate::sm::sections::Section;
use crate::text::{Fault, FileCode, LineNumber, ReadError, StreamWords, end, expect, next_number};
use std::alloc::Global;

/// Returns the rows of successors in the section, one for each job.
#[tactic(auto, unfolding(crate::specs::Precedence::precedence))]
pub fn precedence(
    alloc: Global,
    words: &mut StreamWords<'_, Section>,
    jobs: u32,
) -> Result<Vec<Vec<u32>>, ReadError>
    ensures exact { Gives (λ rows. arcs_of_rows 1 (rows_in rows.items)) result
        (spec.precedence jobs words.old) }
    ensures rows { IfOk result (λ rows. AreRows jobs (rows_in rows.items)) }
{
    let rows = precedence_rows(alloc, words, jobs)?;
    end(words)?;
    Ok(rows)
}

// The rows of all jobs.
fn precedence_rows(
    alloc: Global,
    words: &mut StreamWords<'_, Section>,
    jobs: u32,
) -> Result<Vec<Vec<u32>>, ReadError>
    ensures exact { Gives (λ rows. (arcs_of_rows 1 (rows_in rows.items), words.new)) result
        (spec.precedence_rows_at jobs jobs 1 [] words.old) }
    ensures rows { IfOk result (λ rows. AreRows jobs (rows_in rows.items)) }
{
    let mut marks = vec![in alloc; 0u32; jobs as usize + 1]?;
    let mut rows = Vec::with_capacity(alloc, jobs as usize)?;
    for done in 0..jobs {
        let row = precedence_row(alloc, words, jobs, done + 1, &mut marks)?;
        rows.push(row)?;
    }
    Ok(rows)
}

// The successors in the row of a job. The marks are those of the rows before it.
#[tactic(auto, unfolding(crate::specs::Precedence::precedence_row_at))]
fn precedence_row(
    alloc: Global,
    words: &mut StreamWords<'_, Section>,
    jobs: u32,
    job: u32,
    marks: &mut Vec<u32>,
) -> Result<Vec<u32>, ReadError>
    requires room { length marks.old.items ≡ jobs + 1 }
    requires below { spec.AreBelow job marks.old.items }
    ensures exact { Gives (λ row. (row.items, words.new)) result
        (spec.precedence_row_at jobs job words.old) }
    ensures room { OnOk result (length marks.new.items ≡ jobs + 1) }
    ensures below { OnOk result (spec.AreBelow (job + 1) marks.new.items) }
{
    expect(words, u64::from(job), FileCode::JobOrder)?;
    expect(words, 1, FileCode::Modes)?;
    let count = next_number(words)?;
    successors(alloc, words, jobs, count.value, job, marks)
}

// Reads the next `count` successors in the row of a job, each new to this row.
fn successors(
    alloc: Global,
    words: &mut StreamWords<'_, Section>,
    jobs: u32,
    count: u64,
    row: u32,
    marks: &mut Vec<u32>,
) -> Result<Vec<u32>, ReadError>
    requires room { length marks.old.items ≡ jobs + 1 }
    requires below { spec.AreBelow row marks.old.items }
    ensures exact { Gives (λ row. (row.items, words.new)) result
        (spec.successors_at jobs count [] words.old) }
    ensures room { OnOk result (length marks.new.items ≡ jobs + 1) }
    ensures below { OnOk result (spec.AreBelow (row + 1) marks.new.items) }
{
    let mut found = Vec::with_capacity(alloc, count.min(u64::from(jobs)) as usize)?;
    for _ in 0..count {
        let job = successor(words, jobs, row, marks)?;
        found.push(job)?;
    }
    Ok(found)
}

// Reads the next successor, which must have no mark of this row, and marks it.
#[tactic(auto, unfolding(crate::specs::Precedence::successor_at))]
fn successor(
    words: &mut StreamWords<'_, Section>,
    jobs: u32,
    row: u32,
    marks: &mut Vec<u32>,
) -> Result<u32, Fault>
    requires { length marks.old.items ≡ jobs + 1 }
    ensures exact { (before : List ℕ) → spec.AreMarks row marks.old.items before →
        Reads (λ job. (job, words.new)) result (spec.successor_at jobs before words.old) }
    ensures marked { (before : List ℕ) → spec.AreMarks row marks.old.items before →
        IfOk result (λ job. spec.AreMarks row marks.new.items (before ++ job ∷ [])) }
    ensures room { length marks.new.items ≡ jobs + 1 }
    ensures below { spec.AreBelow (row + 1) marks.old.items →
        spec.AreBelow (row + 1) marks.new.items }
{
    let job = next_job(words, jobs)?;
    if mark(marks, job.value as usize, row) {
        return Err(Fault::new(FileCode::Double, job.line));
    }
    Ok(job.value as u32)
}

// Marks a job with the number of a row, and returns whether it had this mark before.
fn mark(marks: &mut Vec<u32>, job: usize, row: u32) -> bool
    requires { job < length marks.old.items }
    ensures before { (before : List ℕ) → spec.AreMarks row marks.old.items before →
        result ≡ spec.is_among before job }
    ensures marked { (before : List ℕ) → spec.AreMarks row marks.old.items before →
        spec.AreMarks row marks.new.items (before ++ job ∷ []) }
    ensures room { length marks.new.items ≡ length marks.old.items }
    ensures below { spec.AreBelow (row + 1) marks.old.items →
        spec.AreBelow (row + 1) marks.new.items }
{
    let was = marks[job] == row;
    marks[job] = row;
    was
}

// Reads the next word, which must be the number of a job.
#[tactic(auto, unfolding(crate::specs::Precedence::job_at))]
fn next_job(words: &mut StreamWords<'_, Section>, jobs: u32) -> Result<LineNumber, Fault>
    ensures exact { Reads (λ job. (line_number job, words.new)) result
        (spec.job_at jobs words.old) }
    ensures inside { IfOk result (λ job. job.value ≤ jobs) }
{
    let job = next_number(words)?;
    if job.value < 1 || job.value > u64::from(jobs) {
        return Err(Fault::new(FileCode::JobOrder, job.line));
    }
    Ok(job)
}
