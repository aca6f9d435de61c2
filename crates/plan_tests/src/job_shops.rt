//! Words of small job shops.

use crate::shops::shop_of;
use plan_shop::{Shop, ShopTree};
use std::alloc::Global;
use std::process::Abort;
use std::test::Fail;

// A shop, a word, the letters that may follow it, and its bound.
const AT_WORDS: [(&str, &[u32], &[u32], u64); 8] = [
    ("2 2\n0 3 1 2\n0 2 1 4\n", &[], &[1, 2], 8),
    ("2 2\n0 4 1 1\n0 1 1 3\n", &[2, 2, 1, 1], &[], 6),
    ("2 2\n0 4 1 2\n1 1 0 0\n", &[], &[2], 6),
    ("2 2\n0 4 1 2\n1 1 0 0\n", &[2], &[2], 6),
    ("2 2\n0 4 1 2\n1 1 0 0\n", &[2, 2], &[1], 6),
    ("2 2\n0 2 1 1\n1 2 0 1\n", &[1], &[2], 3),
    ("3 2\n0 1 1 1\n0 9 1 1\n1 2 0 0\n", &[], &[1, 2], 11),
    ("3 2\n0 1 1 1\n0 9 1 1\n1 2 0 0\n", &[2, 3], &[3], 11),
];

// Pushes the letters of a word, each of which has to be one that may follow.
fn go_along(
    rt: &impl Abort,
    alloc: Global,
    tree: &mut ShopTree<'_>,
    word: &[u32],
) -> Result<(), Fail> {
    for letter in word {
        let mut letters = Vec::new(alloc);
        tree.letters(&mut letters)?;
        if letters.contains(letter) {
            tree.push(*letter)?;
        } else {
            panic!(rt; "{letter} may not follow");
        }
    }
    Ok(())
}

// Returns the letters that may follow a word, its bound, and whether it is full.
fn stand(
    rt: &impl Abort,
    alloc: Global,
    shop: &Shop,
    word: &[u32],
) -> Result<(Vec<u32>, u64, bool), Fail> {
    let mut tree = ShopTree::new(alloc, shop)?;
    go_along(rt, alloc, &mut tree, word)?;
    let mut letters = Vec::new(alloc);
    tree.letters(&mut letters)?;
    Ok((letters, tree.bound(), tree.full()))
}

#[test]
fn stands_at_each_word(rt: HostRuntime) -> Result<(), Fail> {
    for (text, word, letters, bound) in AT_WORDS {
        let Some(shop) = shop_of(&rt, rt.alloc(), text) else {
            panic!(rt; "no memory");
        };
        let (found, at, full) = stand(&rt, rt.alloc(), &shop, word)?;
        assert_eq!(rt; found.as_slice(), letters, "{text} at {word:?}");
        assert_eq!(rt; at, bound, "{text} at {word:?}");
        assert_eq!(rt; full, letters.is_empty(), "{text} at {word:?}");
    }
    Ok(())
}
