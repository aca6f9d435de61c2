//! The tails and total successors of a small project.

use plan_cpm::{tails, total_successors};
use plan_net::{NetFault, Network};
use std::alloc::Global;
use std::test::Fail;

fn network_of(alloc: Global, durations: &[u64], arcs: &[(u32, u32)]) -> Result<Network, NetFault> {
    Network::new(
        alloc,
        Vec::from_slice(alloc, durations)?,
        Vec::from_slice(alloc, arcs)?,
    )
}

const DURATIONS: [u64; 6] = [0, 3, 2, 4, 3, 0];

const ARCS: [(u32, u32); 7] = [(1, 2), (1, 3), (2, 4), (3, 4), (3, 5), (4, 6), (5, 6)];

#[test]
fn gives_tails_and_successors_of_a_small_project(rt: HostRuntime) -> Result<(), Fail> {
    let alloc = rt.alloc();
    let network = network_of(alloc, &DURATIONS, &ARCS)?;
    let rests = tails(alloc, &network)?;
    assert_eq!(rt; rests.as_slice(), [7, 7, 6, 4, 3, 0].as_slice());
    let totals = total_successors(alloc, &network)?;
    assert_eq!(rt; totals.as_slice(), [5, 2, 3, 1, 1, 0].as_slice());
    Ok(())
}
