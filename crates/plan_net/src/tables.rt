//! Marks for the arcs, the first double arc, rows of lags, the place of an arc in its row.

ghost use Rattle.std.specs.Prelude.{◌≡◌, ℕ, ◌≤◌, ◌<◌, ◌+◌, ◌-◌, length, slice_index, Contains, IfOk, IfSome, IfNone};
ghost use Rattle.std.specs.List.Sorted.{IsStrictlyIncreasing};
ghost use Rattle.plan_net.specs.Network.{unlagged};
ghost use Rattle.plan_net.specs.Limits.{HasGoodArcs, HasNewArcs};
ghost use Rattle.plan_net.specs.Refusals.{IsFirstDoubleArc};
ghost use Rattle.plan_net.specs.Marks.{AreNoLags, IsSquare, HasNoMark};
ghost use Rattle.plan_net.specs.Indexed.{row_at};

use std::alloc::{AllocError, Global};

/// Returns a table of marks with a row and a column for each activity, none of them set.
pub fn no_marks(alloc: Global, count: usize) -> Result<Vec<Vec<bool>>, AllocError>
    ensures square { IfOk result (λ marks. IsSquare count marks.items) }
    ensures empty { IfOk result (λ marks. HasNoMark marks.items) }
{
    let mut marks = Vec::new(alloc);
    for _ in 0..count {
        marks.push(vec![in alloc; false; count]?)?;
    }
    Ok(marks)
}

/// Returns the first arc that equals an earlier one, if there is one. The marks must all be unset,
/// and are changed.
pub fn first_double_arc(
    durations: &[u64],
    arcs: &[(u32, u32)],
    marks: &mut Vec<Vec<bool>>,
) -> Option<(u32, u32)>
    requires good { HasGoodArcs (unlagged durations.now arcs.now) }
    requires square { IsSquare (length durations.now) marks.old.items }
    requires empty { HasNoMark marks.old.items }
    ensures some { IfSome result (IsFirstDoubleArc (unlagged durations.now arcs.now)) }
    ensures none { IfNone result (HasNewArcs (unlagged durations.now arcs.now)) }
{
    for &(i, j) in arcs {
        let row = j as usize - 1;
        let column = i as usize - 1;
        if marks[row][column] {
            return Some((i, j));
        }
        marks[row][column] = true;
    }
    None
}

/// Returns a row of zero lags for each row, of the same length.
pub fn no_lags(alloc: Global, rows: &[Vec<u32>]) -> Result<Vec<Vec<u64>>, AllocError>
    ensures { IfOk result (λ lags. AreNoLags rows.now lags.items) }
{
    let mut lags = Vec::new(alloc);
    for k in 0..rows.len() {
        lags.push(vec![in alloc; 0; rows[k].len()]?)?;
    }
    Ok(lags)
}

// Returns the index of a number in a rising row. Tries the index `i - 1` first, where a row of all
// numbers from 1 contains `i`.
fn place_in_row(row: &[u32], i: u32) -> Option<usize>
    requires { IsStrictlyIncreasing row.now }
    ensures some { IfSome result (λ place. (place < length row.now) ×
        (slice_index row.now place ≡ i)) }
    ensures none { IfNone result (Contains row.now i → ⊥) }
{
    if i > 0 && i as usize <= row.len() && row[i as usize - 1] == i {
        return Some(i as usize - 1);
    }
    match row.binary_search(&i) {
        Ok(place) => Some(place),
        Err(_) => None,
    }
}

/// Returns the index of the row and the index in it of the arc from `i` to `j`, in the rows of
/// predecessors.
pub fn place_in(rows: &[Vec<u32>], i: u32, j: u32) -> Option<(usize, usize)>
    requires { (k : ℕ) → k < length rows.now → IsStrictlyIncreasing (row_at rows.now k) }
    ensures some { IfSome result (λ place. (place.0 + 1 ≡ j) × (place.0 < length rows.now) ×
        (place.1 < length (row_at rows.now place.0))
        × (slice_index (row_at rows.now place.0) place.1 ≡ i)) }
    ensures none { IfNone result (1 ≤ j → j ≤ length rows.now → Contains
        (row_at rows.now (j - 1)) i → ⊥) }
{
    if j == 0 || j as usize > rows.len() {
        return None;
    }
    let row = j as usize - 1;
    match place_in_row(&rows[row], i) {
        Some(place) => Some((row, place)),
        None => None,
    }
}
