//! Worked examples of a network's errors, cycles, orders and lags.

use plan_net::{NetFault, Network};
use std::alloc::Global;
use std::test::Fail;

fn network_of(alloc: Global, durations: &[u64], arcs: &[(u32, u32)]) -> Result<Network, NetFault> {
    Network::new(
        alloc,
        Vec::from_slice(alloc, durations)?,
        Vec::from_slice(alloc, arcs)?,
    )
}

// Returns the activities of the cycle for which the network is refused.
fn cycle_of(made: Result<Network, NetFault>) -> Option<Vec<u32>> {
    match made {
        Err(NetFault::Cycle(members)) => Some(members),
        _ => None,
    }
}

#[test]
fn names_one_cycle_along_the_arcs(rt: HostRuntime) -> Result<(), Fail> {
    let five: [u64; 5] = [0, 1, 1, 1, 0];
    let six: [u64; 6] = [0, 1, 1, 1, 1, 0];
    let round = cycle_of(network_of(rt.alloc(), &five, &[(2, 3), (3, 4), (4, 2)]));
    assert_eq!(rt; round.ok_or("no cycle")?.as_slice(), [2, 3, 4].as_slice());
    let backwards = cycle_of(network_of(rt.alloc(), &five, &[(2, 4), (4, 3), (3, 2)]));
    assert_eq!(rt;
        backwards.ok_or("no cycle")?.as_slice(),
        [2, 4, 3].as_slice()
    );
    let alone = cycle_of(network_of(rt.alloc(), &five, &[(2, 2)]));
    assert_eq!(rt; alone.ok_or("no cycle")?.as_slice(), [2].as_slice());
    // 2 is the least in which each has a predecessor, and 6 its least predecessor there
    let led = cycle_of(network_of(rt.alloc(), &six, &[(3, 4), (4, 3), (5, 6), (6, 5), (6, 2)]));
    assert_eq!(rt; led.ok_or("no cycle")?.as_slice(), [5, 6].as_slice());
    Ok(())
}

#[test]
fn refuses_for_the_first_fault(rt: HostRuntime) -> Result<(), Fail> {
    let alloc = rt.alloc();
    let five: [u64; 5] = [0, 1, 1, 1, 0];
    assert!(rt; matches!(network_of(alloc, &[0], &[(1, 9)]), Err(NetFault::Size)));
    assert!(rt;
        matches!(
            network_of(alloc, &[0, 10_001, 10_001], &[(9, 9)]),
            Err(NetFault::BadDuration(2))
        )
    );
    let long = vec![in alloc; 10_000u64; 102]?;
    assert!(rt;
        matches!(
            network_of(alloc, &long, &[]),
            Err(NetFault::BadDuration(101))
        )
    );
    assert!(rt;
        matches!(
            network_of(alloc, &five, &[(1, 2), (1, 2), (1, 6)]),
            Err(NetFault::BadArc(1, 6))
        )
    );
    assert!(rt;
        matches!(
            network_of(alloc, &five, &[(1, 2), (0, 3)]),
            Err(NetFault::BadArc(0, 3))
        )
    );
    assert!(rt;
        matches!(
            network_of(alloc, &five, &[(2, 2), (1, 3), (1, 2), (1, 3)]),
            Err(NetFault::DoubleArc(1, 3))
        )
    );
    let many = vec![in alloc; 1u64; 503]?;
    assert!(rt; matches!(network_of(alloc, &many, &[]), Err(NetFault::Size)));
    Ok(())
}

#[test]
fn takes_the_least_that_can_come(rt: HostRuntime) -> Result<(), Fail> {
    let network = network_of(
        rt.alloc(),
        &[0, 3, 2, 4, 3, 0],
        &[(6, 1), (2, 4), (5, 3), (3, 2), (6, 3)],
    )?;
    assert_eq!(rt; network.order(), [5, 6, 1, 3, 2, 4].as_slice());
    assert_eq!(rt; network.len(), 6);
    assert_eq!(rt; network.duration(4), 4);
    assert_eq!(rt; network.preds(3), [5, 6].as_slice());
    assert_eq!(rt; network.succs(6), [1, 3].as_slice());
    Ok(())
}

#[test]
fn keeps_a_lag_for_each_arc(rt: HostRuntime) -> Result<(), Fail> {
    let mut network = network_of(rt.alloc(), &[0, 1, 0], &[(1, 2), (1, 3), (2, 3)])?;
    assert_eq!(rt; network.lag(1, 3), Some(0));
    network.set_lag(1, 3, 10_000)?;
    network.set_lag(2, 3, 7)?;
    network.set_lag(1, 3, 5)?;
    assert_eq!(rt; network.lag(1, 3), Some(5));
    assert_eq!(rt; network.lag(2, 3), Some(7));
    assert_eq!(rt; network.lag(1, 2), Some(0));
    assert_eq!(rt; network.lag(3, 1), None);
    assert!(rt; matches!(network.set_lag(3, 2, 10_001), Err(NetFault::NoArc(3, 2))));
    assert!(rt; matches!(network.set_lag(2, 0, 1), Err(NetFault::NoArc(2, 0))));
    assert!(rt; matches!(network.set_lag(2, 3, 10_001), Err(NetFault::BadLag(2, 3))));
    assert_eq!(rt; network.lag(2, 3), Some(7));
    Ok(())
}
