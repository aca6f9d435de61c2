//! Lower bounds that take no search.

ghost use Rattle.std.specs.Prelude.{IfOk};
ghost use Rattle.plan_sgs.specs.Instances.{problem_of};
ghost use Rattle.plan_solve.specs.Solutions.{IsLowerBound};

use plan_sgs::{Instance, ProjectTree};
use std::alloc::{AllocError, Global};

/// The longest path, or how long a resource is busy at least if that is more.
pub fn simple_bound(alloc: Global, instance: &Instance) -> Result<u64, AllocError>
    ensures { IfOk result (IsLowerBound (problem_of instance.now)) }
{
    // the instance's facts, on which the proof rests
    let _network = instance.network();
    let tree = ProjectTree::new(alloc, instance)?;
    Ok(tree.bound())
}
