//! Active schedules by priority rules.

ghost use Rattle.std.specs.Prelude.{◌≡◌, All, IfOk, IfErr};
ghost use Rattle.plan_profile.specs.Usage.{IsInTime};
ghost use Rattle.plan_sgs.specs.Problem.{IsActive, makespan};
ghost use Rattle.plan_shop.specs.Laws.{placed_in};
ghost use Rattle.plan_shop.specs.Names.{word_by};
ghost use Rattle.plan_shop.specs.Shop.{problem_of};
ghost use Rattle.plan_shop.specs.Trees.{standing};
ghost use Rattle.plan_shop.specs.Words.{starts_of};
ghost use Rattle.plan_shop.specs.declared.fault.ShopFault.TheVariants.{NoMemory};

use crate::fault::ShopFault;
use crate::rule::ShopRule;
use crate::shop::Shop;
use crate::tree::ShopTree;
use plan_sgs::Schedule;
use std::alloc::{AllocError, Global};

/// Returns the active schedule of a rule: steps are placed one after another, each time the next
/// step of the job that the rule chooses among the letters that may follow. Starts are in flat
/// order, in whole time units up to 10,000,000. The only error is [`ShopFault::NoMemory`].
///
/// The algorithm is that of B. Giffler and G. L. Thompson, "Algorithms for solving
/// production-scheduling problems", Operations Research 8 (1960).
pub fn giffler(alloc: Global, shop: &Shop, rule: ShopRule) -> Result<Schedule, ShopFault>
    ensures starts { IfOk result (λ s.
        s.starts.items ≡ starts_of shop.now (placed_in shop.now (word_by rule shop.now))) }
    ensures makespan { IfOk result (λ s.
        s.makespan ≡ makespan (problem_of shop.now) s.starts.items) }
    ensures active { IfOk result (λ s. IsActive (problem_of shop.now) s.starts.items) }
    ensures within { IfOk result (λ s. All IsInTime s.starts.items) }
    ensures err { IfErr result (λ fault. fault ≡ NoMemory) }
{
    let tree = at_word_of(alloc, shop, rule)?;
    Ok(tree.schedule(alloc)?)
}

// Returns the tree of a shop at the word of a rule.
fn at_word_of<'a>(alloc: Global, shop: &'a Shop, rule: ShopRule) -> Result<ShopTree<'a>, AllocError>
    ensures { IfOk result (λ tree. tree ≡ standing shop.now (word_by rule shop.now)) }
{
    let mut tree = ShopTree::new(alloc, shop)?;
    let mut letters = Vec::new(alloc);
    for _turn in 0..shop.jobs() * shop.machines() {
        letters.clear();
        tree.letters(&mut letters)?;
        if let Some(letter) = tree.choice(rule, &letters) {
            tree.push(letter)?;
        }
    }
    Ok(tree)
}
