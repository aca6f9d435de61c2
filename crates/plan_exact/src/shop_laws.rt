//! Laws of the trees of job shops that proofs cite. The functions do nothing.

ghost use Rattle.plan_shop.specs.Shop.{JobShop};
ghost use Rattle.plan_exact.specs.ShopTrees.{TreeHasWords, ShopTreesKeepLaws, FoundIsShortest};

/// The words of a shop form a tree that satisfies the laws of trees, so a search of it skips no
/// better word.
pub fn shops_make_trees()
    ensures words { (s : JobShop) → TreeHasWords s }
    ensures laws { ShopTreesKeepLaws }
{}

/// The first word of least makespan of a shop's tree has no greater makespan than any feasible
/// schedule of the shop.
pub fn found_is_shortest()
    ensures { FoundIsShortest }
{}
