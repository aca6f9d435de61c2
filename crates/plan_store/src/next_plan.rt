//! The number of a desk's next plan, kept from the last reading of the desk's row.

ghost use Rattle.std.specs.Prelude.{◌≡◌, IfSome, IsSomeAnd, IsOkAnd, string_bytes};

use plan_rows::{BookFault, DeskRow};
use std::alloc::Global;

/// A desk, and the number of its next plan.
#[derive(Drop)]
pub struct NextPlan {
    pub desk: String,
    pub n: u64,
}

/// Returns the next number of a desk that was read, or None if the desk doesn't exist or memory for
/// its name runs out.
pub fn next_plan_of(
    alloc: Global,
    desk: &str,
    answer: &Result<Option<DeskRow>, BookFault>,
) -> Option<NextPlan>
    ensures desk { IfSome result (λ next. string_bytes next.desk ≡ desk.now) }
    ensures number { IfSome result (λ next. IsOkAnd answer.now
        (λ found. IsSomeAnd found (λ row. row.next ≡ next.n))) }
{
    let Ok(Some(row)) = answer else {
        return None;
    };
    let Ok(desk) = String::from_str(alloc, desk) else {
        return None;
    };
    Some(NextPlan { desk, n: row.next })
}

/// Returns the number that is kept, if it is this desk's.
pub fn known_number(kept: &Option<NextPlan>, desk: &str) -> Option<u64>
    ensures { IfSome result (λ n. IsSomeAnd kept.now
        (λ next. (string_bytes next.desk ≡ desk.now) × (next.n ≡ n))) }
{
    match kept {
        Some(next) if next.desk.as_str() == desk => Some(next.n),
        _ => None,
    }
}
