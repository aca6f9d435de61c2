//! One row of amounts, a number for each resource.
ghost use Rattle.std.specs.Prelude.{◌≡◌, ℕ, ◌+◌, ◌^◌, ◌≤◌, ◌<◌, ◌↔◌, length, slice_index};
ghost use Rattle.std.specs.Prelude.{EachIndex, IsTrue, IfOk, replicate};
ghost use Rattle.plan_profile.specs.Usage.{FitsEmpty};
ghost use Rattle.plan_profile.specs.Changes.{IsRowWith};

use std::alloc::{AllocError, Global};

// Returns a row with the amount 0 for each capacity.
pub(crate) fn zeros(alloc: Global, caps: &[u64]) -> Result<Vec<u64>, AllocError>
    ensures zeros { IfOk result (λ row. row.items ≡ replicate (length caps.now) 0) }
    ensures small { (k : ℕ) → slice_index caps.now k < 2 ^ 64 }
{
    vec![in alloc; 0; caps.len()]
}

// Tests whether each need is at most its capacity.
pub(crate) fn row_is_within(caps: &[u64], needs: &[u64]) -> bool
    requires { length needs.now ≡ length caps.now }
    ensures { IsTrue result ↔ FitsEmpty caps.now needs.now }
{
    caps.iter().zip(needs).all(|(cap, need)| need <= cap)
}

// Tests whether needs, added to the amounts of a row, keep the capacities.
pub(crate) fn has_room(caps: &[u64], row: &[u64], needs: &[u64]) -> bool
    requires row { length row.now ≡ length caps.now }
    requires needs { length needs.now ≡ length caps.now }
    ensures { IsTrue result ↔ EachIndex caps.now
        (λ k. slice_index row.now k + slice_index needs.now k ≤ slice_index caps.now k) }
{
    caps.iter().zip(row).zip(needs).all(|((cap, amount), need)| need <= cap
        && *amount <= cap - need)
}

// Adds needs to the amounts of a row.
pub(crate) fn add_needs(row: &mut [u64], needs: &[u64])
    requires wide { length row.old ≡ length needs.now }
    requires sums { EachIndex needs.now
        (λ k. slice_index row.old k + slice_index needs.now k < 2 ^ 64) }
    ensures { IsRowWith row.old needs.now row.new }
{
    for (k, amount) in row.iter_mut().enumerate() {
        *amount += needs[k];
    }
}
