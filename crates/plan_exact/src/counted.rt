//! The tree of a job shop's words with a count of its pushes.

use crate::{Branching, Pushes};
use plan_shop::{Shop, ShopTree};
use std::alloc::{AllocError, Global};
use std::marker::Model;

/// The tree of a shop's words with the count of its pushes. Only contracts can see the count.
#[derive(Drop)]
pub struct CountedTree<'a> {
    tree: ShopTree<'a>,
    pushes: Pushes,
}

impl<'a> Model for CountedTree<'a> {
    ghost use Rattle.plan_exact.specs.ShopTrees.{Counted};
    ghost use Rattle.plan_shop.specs.Shop.{IsShop};

    ghost Value = { Counted };

    ghost view = { λ t.
        record { shop = t.tree.shop; word = t.tree.word; pushes = t.pushes.count } };

    ghost invariant = { λ t. IsShop t.tree.shop };
}

impl<'a> CountedTree<'a> {
    ghost use Rattle.std.specs.Prelude.{◌≡◌, [], IfOk};

    /// Returns the tree of a shop at the empty word.
    pub fn new(alloc: Global, shop: &'a Shop) -> Result<CountedTree<'a>, AllocError>
        ensures { IfOk result (λ tree. tree ≡ record { shop = shop.now; word = []; pushes = 0 }) }
    {
        // The proof needs the invariant of the shop, which this call states.
        let _machines = shop.machines();
        Ok(CountedTree {
            tree: ShopTree::new(alloc, shop)?,
            pushes: Pushes::new(),
        })
    }
}

impl<'a> Branching for CountedTree<'a> {
    ghost use Rattle.plan_exact.specs.Laws.{KeepsLaws};
    ghost use Rattle.plan_exact.specs.ShopTrees.{tree_of};

    ghost is_valid = { λ t. KeepsLaws (tree_of t.shop) };

    ghost tree = { λ t. tree_of t.shop };

    ghost word = { λ t. t.word };

    ghost pushes = { λ t. t.pushes };

    fn known(&self) {
        let _ = &self.tree;
    }

    #[tactic(auto, unfolding(crate::specs::ShopTrees::tree_of))]
    fn push(&mut self, letter: u32) -> Result<(), AllocError> {
        self.tree.push(letter)?;
        self.pushes = self.pushes.raised();
        Ok(())
    }

    fn pop(&mut self) {
        self.tree.pop();
    }

    #[tactic(auto, unfolding(crate::specs::ShopTrees::tree_of))]
    fn letters(&self, list: &mut Vec<u32>) -> Result<(), AllocError> {
        self.tree.letters(list)
    }

    #[tactic(auto, unfolding(crate::specs::ShopTrees::tree_of))]
    fn bound(&self) -> u64 {
        self.tree.bound()
    }

    #[tactic(auto, unfolding(crate::specs::ShopTrees::tree_of))]
    fn is_open(&self, limit: u64) -> bool {
        self.tree.is_open(limit)
    }

    #[tactic(auto, unfolding(crate::specs::ShopTrees::tree_of))]
    fn full(&self) -> bool {
        self.tree.full()
    }

    #[tactic(auto, unfolding(crate::specs::ShopTrees::tree_of))]
    fn makespan(&self) -> u64 {
        self.tree.makespan()
    }

    ghost letters_rise = { λ t valid. valid.rise };

    ghost words_are_finite = { λ t valid. valid.finite };

    ghost bound_holds = { λ t valid. valid.bounded };
}
