//! Serial schedule generation by a list and with a lag.

use plan_psplib::{ProjectDoc, read_sm};
use plan_sgs::{Instance, Rule, SgsFault, Verdict, check, serial, serial_list};
use std::test::Fail;

// The example of six activities, with a duration of 5 for activity 5.
const LONGER: &str = "projects: 1
jobs: 6
- renewable: 1
- nonrenewable: 0
- doubly constrained: 0
PRECEDENCE RELATIONS:
jobnr. #modes #successors successors
1 1 2 2 3
2 1 1 4
3 1 2 4 5
4 1 1 6
5 1 1 6
6 1 0
REQUESTS/DURATIONS:
jobnr. mode duration R
1 1 0 0
2 1 3 1
3 1 2 1
4 1 4 1
5 1 5 1
6 1 0 0
RESOURCEAVAILABILITIES:
R
2
";

fn project(rt: &HostRuntime) -> Option<ProjectDoc> {
    read_sm(rt.alloc(), LONGER.as_bytes()).ok()
}

#[test]
fn places_by_a_list(rt: HostRuntime) -> Result<(), Fail> {
    let Some(project) = project(&rt) else {
        panic!(rt; "the file isn't read");
    };
    assert_eq!(rt; project.avail().len(), 1);
    let caps = [2];
    let instance = Instance::of_project(&project, &caps)?;
    let found = serial_list(rt.alloc(), &instance, &[1, 2, 3, 5, 4, 6])?;
    assert_eq!(rt; found.starts.as_slice(), [0, 0, 0, 3, 2, 7].as_slice());
    assert_eq!(rt; found.makespan, 7);
    let others: [&[u32]; 6] = [
        &[1, 4, 2, 3, 5, 6],
        &[0, 2, 3, 4, 5, 6],
        &[1, 2, 3, 4, 5, 7],
        &[1, 2, 2, 4, 5, 6],
        &[1, 2, 3, 4, 5],
        &[1, 2, 3, 4, 5, 6, 6],
    ];
    for list in others {
        let refused = serial_list(rt.alloc(), &instance, list);
        assert!(rt; matches!(refused, Err(SgsFault::NotAList)), "{list:?}");
    }
    Ok(())
}

#[test]
fn keeps_a_lag(rt: HostRuntime) -> Result<(), Fail> {
    let Some(mut project) = project(&rt) else {
        panic!(rt; "the file isn't read");
    };
    project.set_lag(2, 4, 2)?;
    assert!(rt; project.avail().len() == 1);
    let cases: [(u64, [u64; 6], u64); 2] = [
        (2, [0, 0, 0, 5, 2, 9], 9),
        (1, [0, 0, 3, 5, 9, 14], 14),
    ];
    for (capacity, starts, makespan) in cases {
        let caps = [capacity];
        let instance = Instance::of_project(&project, &caps)?;
        let found = serial(rt.alloc(), &instance, Rule::LatestFinish)?;
        assert_eq!(rt;
            found.starts.as_slice(),
            starts.as_slice(),
            "with {capacity}"
        );
        assert_eq!(rt; found.makespan, makespan, "with {capacity}");
    }
    let caps = [2];
    let instance = Instance::of_project(&project, &caps)?;
    let starts: [u64; 6] = [0, 0, 0, 4, 2, 9];
    assert!(rt; instance.network().len() == starts.len());
    assert_eq!(rt; check(rt.alloc(), &instance, &starts)?, Verdict::Arc(2, 4));
    Ok(())
}
