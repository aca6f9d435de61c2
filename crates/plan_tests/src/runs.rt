//! Runs of one command each, and the search that reports no progress. No command calls them.

use crate::shops::shop_of;
use crate::six::SIX;
use plan_cli::{best_project_run, best_run, schedule_run, shop_run};
use plan_io::{MemSink, MemSource};
use plan_prove::prove;
use std::str;
use std::test::Fail;

// Two jobs of two steps on two machines.
const PAIR: &str = "2 2\n0 4 1 1\n0 1 1 3\n";

// Activities 2 and 3 start together; 5 starts when 3 ends, and 4 when 2 ends.
const SCHEDULE: &str = " act       d   start     end
   1       0       0       0
   2       3       0       3
   3       2       0       2
   4       4       3       7
   5       3       2       5
   6       0       7       7
makespan 7
";

// Job 1 has more work, so it comes first on machine 0.
const SHOP: &str = " job    step    mach       d   start     end
   1       1       0       4       0       4
   1       2       1       1       4       5
   2       1       0       1       4       5
   2       2       1       3       5       8
makespan 8
";

// Job 2 comes first on both machines.
const BEST: &str = "optimal 6
 job    step    mach       d   start     end
   1       1       0       4       1       5
   1       2       1       1       5       6
   2       1       0       1       0       1
   2       2       1       3       1       4
makespan 6
";

#[test]
fn writes_a_schedule(rt: HostRuntime) -> Result<(), Fail> {
    let mut sink = MemSink::new(Vec::new(rt.alloc()));
    schedule_run(
        rt.alloc(),
        "lft",
        &mut MemSource::new(SIX.as_bytes()),
        &mut sink,
    )?;
    assert_eq!(rt; str::from_utf8(&sink.into_bytes()), Ok(SCHEDULE));
    Ok(())
}

#[test]
fn writes_a_schedule_of_a_shop(rt: HostRuntime) -> Result<(), Fail> {
    let mut sink = MemSink::new(Vec::new(rt.alloc()));
    let mut source = MemSource::new(PAIR.as_bytes());
    shop_run(rt.alloc(), "mwkr", "-", &mut source, &mut sink)?;
    assert_eq!(rt; str::from_utf8(&sink.into_bytes()), Ok(SHOP));
    Ok(())
}

#[test]
fn writes_a_shortest_schedule_of_a_shop(rt: HostRuntime) -> Result<(), Fail> {
    let mut sink = MemSink::new(Vec::new(rt.alloc()));
    let mut source = MemSource::new(PAIR.as_bytes());
    best_run(rt.alloc(), "6", "-", &mut source, &mut sink)?;
    assert_eq!(rt; str::from_utf8(&sink.into_bytes()), Ok(BEST));
    Ok(())
}

// The first schedule takes 7 time units, which is the length of the longest path.
#[test]
fn writes_a_shortest_schedule_of_a_project(rt: HostRuntime) -> Result<(), Fail> {
    let mut sink = MemSink::new(Vec::new(rt.alloc()));
    best_project_run(
        rt.alloc(),
        "1",
        &mut MemSource::new(SIX.as_bytes()),
        &mut sink,
    )?;
    let wanted = format!(in rt.alloc(); "optimal 7\n{SCHEDULE}")?;
    assert_eq!(rt; str::from_utf8(&sink.into_bytes()), Ok(wanted.as_str()));
    Ok(())
}

// The steps on machine 0 take 5 time units, and at least 1 follows the last of them.
#[test]
fn proves_that_a_schedule_is_shortest(rt: HostRuntime) -> Result<(), Fail> {
    let Some(shop) = shop_of(&rt, rt.alloc(), PAIR) else {
        panic!(rt; "no memory");
    };
    let proof = prove(rt.alloc(), &shop, 1000)?;
    assert_eq!(rt; proof.lower, 6);
    assert_eq!(rt; proof.schedule.makespan, 6);
    assert_eq!(rt; proof.schedule.starts.as_slice(), [1, 5, 0, 1].as_slice());
    Ok(())
}
