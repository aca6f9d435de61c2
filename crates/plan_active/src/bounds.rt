//! A lower bound of all makespans of a job shop that needs no search.

ghost use Rattle.std.specs.Prelude.{IfOk};
ghost use Rattle.plan_shop.specs.Shop.{problem_of};
ghost use Rattle.plan_active.specs.Bounds.{IsLowerBound};

use plan_shop::{Shop, ShopTree};
use std::alloc::{AllocError, Global};

/// Returns a lower bound of all makespans: the greatest one of the lengths of the jobs and of the
/// one-machine bounds with heads and tails (Carlier 1982) before any step is placed.
pub fn shop_bound(alloc: Global, shop: &Shop) -> Result<u64, AllocError>
    ensures { IfOk result (IsLowerBound (problem_of shop.now)) }
{
    // the call brings the invariant of the shop, which the proof needs
    let _jobs = shop.jobs();
    let tree = ShopTree::new(alloc, shop)?;
    Ok(tree.bound())
}
