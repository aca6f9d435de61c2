//! Literals: lower bounds of starts, and of what is left of them below a limit.

ghost use Rattle.std.specs.Prelude.{◌≡◌, ◌≤◌, length};
ghost use Rattle.plan_kernel.specs.Literals as spec;

/// No start and no cost that a clause speaks of is greater.
pub const LIMIT: u32 = 1_073_741_824;

/// A bound of a quantity `x`. For `x` below the number `n` of activities it is the start of activity
/// `x`, for `x = n` the cost, and above it 1 or 0 for order `x - n - 1`: whether its first
/// activity ends before its second starts.
///
/// Half `2 * x` with value `v` says that the quantity is at least `v`. Half `2 * x + 1` with value
/// `v` says that the quantity is at most [`LIMIT`] - `v`.
#[derive(Clone, Copy, Drop)]
pub struct Literal {
    pub half: u32,
    pub value: u32,
}

/// The half that bounds the same quantity from the other side.
pub fn opposite(half: u32) -> u32
    ensures { result ≡ spec.opposite half }
{
    if half % 2 == 0 { half + 1 } else { half - 1 }
}

/// The literal that holds exactly if this one doesn't.
pub fn negated(literal: Literal) -> Literal
    ensures { result ≡ spec.negated literal }
{
    Literal {
        half: opposite(literal.half),
        value: (LIMIT + 1).saturating_sub(literal.value),
    }
}

/// The number at a place, 0 if there is none.
pub fn at(list: &[u32], place: usize) -> u32
    ensures { result ≡ spec.at list.now place }
{
    if place < list.len() { list[place] } else { 0 }
}
