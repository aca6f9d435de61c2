//! Worked examples of verdicts on starts of job shops.

ghost use Rattle.std.specs.Prelude.{All, ◌≤◌};

use crate::shops::shop_of;
use plan_profile::END;
use plan_sgs::Verdict;
use plan_shop::check;
use std::alloc::Global;
use std::process::Abort;
use std::test::Fail;

// Two jobs on two machines.
const PAIR: &str = "2 2\n0 4 1 1\n0 1 1 3\n";

// Two jobs on two machines, with two steps that take no time.
const AT_ONCE: &str = "2 2\n0 0 1 2\n0 1 1 0\n";

// Returns the verdict on these starts, for the job shop of a text with two machines.
fn verdict(rt: &impl Abort, alloc: Global, text: &str, starts: &[u64]) -> Option<Verdict> {
    let shop = shop_of(rt, alloc, text)?;
    if starts.len() != shop.jobs() as usize * shop.machines() as usize
        || !starts.iter().all(|t| *t <= END)
    {
        return None;
    }
    Some(check(&shop, starts))
}

#[test]
fn names_what_is_wrong_first(rt: HostRuntime) -> Result<(), Fail> {
    let cases = [
        (PAIR, [1, 5, 0, 1], Verdict::Active),
        (PAIR, [0, 4, 0, 4], Verdict::Over(0, 1)),
        (PAIR, [0, 3, 0, 4], Verdict::Arc(1, 2)),
        (PAIR, [0, 4, 4, 4], Verdict::Arc(3, 4)),
        (PAIR, [0, 5, 4, 5], Verdict::Over(5, 2)),
        (PAIR, [1, 6, 0, 1], Verdict::Shift(2)),
        (PAIR, [1, 5, 0, 2], Verdict::Shift(4)),
        (PAIR, [END, END, 0, 1], Verdict::Arc(1, 2)),
        (AT_ONCE, [0, 0, 0, 1], Verdict::Active),
        (AT_ONCE, [1, 1, 0, 1], Verdict::Shift(1)),
        (AT_ONCE, [0, 0, 0, 2], Verdict::Shift(4)),
    ];
    for (text, starts, wanted) in cases {
        assert_eq!(rt;
            verdict(&rt, rt.alloc(), text, &starts),
            Some(wanted),
            "{text} at {starts:?}"
        );
    }
    Ok(())
}
