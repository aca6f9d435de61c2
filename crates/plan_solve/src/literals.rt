//! Literals by the quantities that they bound.

use plan_kernel::{LIMIT, Literal};

/// The literal that a quantity is at least a value.
pub fn at_least(quantity: u32, value: u32) -> Literal {
    Literal {
        half: quantity.wrapping_mul(2),
        value,
    }
}

/// The literal that a quantity is at most a value less another. If that is below 0 it never holds.
pub fn at_most(quantity: u32, value: u32, less: u32) -> Literal {
    Literal {
        half: quantity.wrapping_mul(2) | 1,
        value: LIMIT.saturating_add(less).saturating_sub(value),
    }
}

/// The literal that holds exactly if this one doesn't.
pub fn negated(literal: Literal) -> Literal {
    Literal {
        half: literal.half ^ 1,
        value: (LIMIT + 1).saturating_sub(literal.value),
    }
}

/// The literal or its negation, whichever says that a quantity is at least a value.
pub fn upright(literal: Literal) -> Literal {
    if literal.half % 2 == 0 {
        literal
    } else {
        negated(literal)
    }
}
