//! Parser of budgets.

ghost use Rattle.std.specs.Prelude.{◌≡◌, ℕ, IfOk, IfErr, IsTrue};
ghost use Rattle.plan_exact.specs.Budgets as spec;
ghost use Rattle.plan_exact.specs.declared.fault.ExactFault.TheVariants.{BadBudget};

use crate::ExactFault;
use crate::shop_solution::GREATEST_BUDGET;

/// Tests whether a text begins with a digit other than 0.
pub fn begins_above_zero(text: &str) -> bool
    ensures yes { IsTrue result → spec.BeginsAboveZero text.now }
    ensures no { spec.BeginsAboveZero text.now → IsTrue result }
{
    match text.as_bytes().first() {
        Some(first) => (b'1'..=b'9').contains(first),
        None => false,
    }
}

/// Parses a budget: a decimal number from 1 to 200,000 without leading zeros. Allocates nothing.
///
/// Fails with [`ExactFault::BadBudget`] for any other text.
pub fn parse_budget(text: &str) -> Result<u64, ExactFault>
    ensures ok { IfOk result (spec.IsBudgetText text.now) }
    ensures refused { IfErr result (λ fault.
        (fault ≡ BadBudget) × ((budget : ℕ) → spec.IsBudgetText text.now budget → ⊥)) }
{
    if !begins_above_zero(text) {
        return Err(ExactFault::BadBudget);
    }
    match text.parse::<u64>() {
        Ok(budget) if budget <= GREATEST_BUDGET => Ok(budget),
        _ => Err(ExactFault::BadBudget),
    }
}
