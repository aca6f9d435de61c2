//! Public calls that allocate and change a value, each made twice. With ample memory both answers
//! are the known one. If one allocation fails (`tests/refusals/run` lets each fail in turn), the
//! first call may report it. It then changes nothing, so the second answer is the known one.

use crate::shops::shop_of;
use plan_exact::Branching;
use plan_profile::Profile;
use plan_shop::{ShopFault, ShopRule, ShopTree, giffler};
use std::alloc::Global;
use std::process::Abort;
use std::test::Fail;

// Two orders on two machines.
const PAIR: &str = "2 2\n0 4 1 1\n0 1 1 3\n";

// Returns an answer, or none if memory runs out.
fn of_shop<T: Drop>(rt: &impl Abort, answer: Result<T, ShopFault>) -> Option<T> {
    match answer {
        Ok(value) => Some(value),
        Err(ShopFault::NoMemory) => None,
        Err(_) => panic!(rt; "another fault of a shop"),
    }
}

// Returns whether the first answer is the known one, or the second if there is no first.
fn settles<T: PartialEq + Drop>(first: Option<T>, second: Option<T>, known: T) -> bool {
    match first {
        Some(answer) => answer == known,
        None => second == Some(known),
    }
}

// Places an amount of 1 from 0 to 3 with a capacity of 2. Returns the usage at the instants 2 and
// 3, and the number of changes.
fn placed(rt: &impl Abort, alloc: Global) -> Option<(u64, u64, usize)> {
    let caps = Vec::from_array(alloc, [2]).ok()?;
    let mut profile = Profile::new(alloc, caps).ok()?;
    assert!(rt; profile.fits(0, 3, &[1]));
    if profile.place(0, 3, &[1]).is_err() {
        assert!(rt; profile.usage(0, 1) == 0 && profile.changes().is_empty());
        return None;
    }
    let copy = profile.copy().ok()?;
    Some((copy.usage(2, 1), copy.usage(3, 1), copy.changes().len()))
}

#[test]
fn profiles(rt: HostRuntime) -> Result<(), Fail> {
    let (first, second) = (placed(&rt, rt.alloc()), placed(&rt, rt.alloc()));
    assert!(rt; settles(first, second, (1, 0, 2)));
    Ok(())
}

// Returns the makespan by a rule, the number of first letters, and the bound after letter 1.
fn walked(rt: &impl Abort, alloc: Global) -> Option<(u64, usize, u64)> {
    let shop = shop_of(rt, alloc, PAIR)?;
    let by_rule = of_shop(rt, giffler(alloc, &shop, ShopRule::MostWorkRemaining))?;
    let mut tree = ShopTree::new(alloc, &shop).ok()?;
    let mut letters = Vec::new(alloc);
    let Ok(()) = tree.letters(&mut letters) else {
        return None;
    };
    if letters.contains(&1) {
        tree.push(1).ok()?;
    }
    Some((by_rule.makespan, letters.len(), tree.bound()))
}

#[test]
fn shops(rt: HostRuntime) -> Result<(), Fail> {
    let (first, second) = (walked(&rt, rt.alloc()), walked(&rt, rt.alloc()));
    assert!(rt; settles(first, second, (8, 2, 8)));
    Ok(())
}
