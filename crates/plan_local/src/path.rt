//! Critical paths.

use crate::dates::Dates;
use crate::draws::Draws;
use crate::lists::{NONE, at};
use crate::rows::Rows;
use crate::steps::Steps;
use std::alloc::AllocError;

// Returns a random critical step that no step is before.
fn first_step(dates: &Dates, draws: &mut Draws) -> u32 {
    let (mut found, mut many) = (NONE, 0u32);
    for index in 0..dates.roots() {
        let step = dates.root(index);
        if dates.is_critical_after(step, 0) {
            many = many.wrapping_add(1);
            if draws.takes_last(many) {
                found = step;
            }
        }
    }
    found
}

// Returns a random critical step directly behind a step, `NONE` at the end of the path.
fn next_step(steps: &Steps, rows: &Rows, dates: &Dates, draws: &mut Draws, step: u32) -> u32 {
    let end = at(&dates.ends, step);
    let (of_job, of_machine) = (at(&steps.behind, step), at(&rows.behind, step));
    if !dates.is_critical_after(of_job, end) {
        return if dates.is_critical_after(of_machine, end) {
            of_machine
        } else {
            NONE
        };
    }
    if dates.is_critical_after(of_machine, end) && draws.below(2) == 0 {
        of_machine
    } else {
        of_job
    }
}

/// Makes a list a random critical path.
pub fn find_path(
    steps: &Steps,
    rows: &Rows,
    dates: &Dates,
    draws: &mut Draws,
    path: &mut Vec<u32>,
) -> Result<(), AllocError> {
    path.clear();
    let mut step = first_step(dates, draws);
    for _ in 0..steps.count {
        if step == NONE {
            break;
        }
        path.push(step)?;
        step = next_step(steps, rows, dates, draws, step);
    }
    Ok(())
}

/// Returns the index in a path of the last step of a block: of the steps from an index on that
/// follow each other on one machine.
pub fn end_of_block(rows: &Rows, path: &[u32], first: u32) -> u32 {
    let mut last = first;
    for index in first as usize + 1..path.len() {
        if at(&rows.behind, at(path, last)) != path[index] {
            break;
        }
        last = (index & 0xffff_ffff) as u32;
    }
    last
}
