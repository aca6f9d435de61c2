//! Parser of numbers of nodes.

ghost use Rattle.std.specs.Prelude.{◌≡◌, ℕ, IfOk, IfErr};
ghost use Rattle.plan_prove.specs.Nodes as spec;
ghost use Rattle.plan_prove.specs.declared.fault.ProveFault.TheVariants.{BadNodes};

use crate::fault::ProveFault;
use crate::proof::MOST_NODES;
use plan_exact::begins_above_zero;

/// Parses a number of nodes: a decimal number from 1 to 1,000,000,000 without leading zeros.
/// Allocates nothing.
///
/// Fails with [`ProveFault::BadNodes`] for any other text.
pub fn parse_nodes(text: &str) -> Result<u64, ProveFault>
    ensures ok { IfOk result (spec.IsNodesText text.now) }
    ensures refused { IfErr result (λ fault.
        (fault ≡ BadNodes) × ((nodes : ℕ) → spec.IsNodesText text.now nodes → ⊥)) }
{
    if !begins_above_zero(text) {
        return Err(ProveFault::BadNodes);
    }
    match text.parse::<u64>() {
        Ok(nodes) if nodes <= MOST_NODES => Ok(nodes),
        _ => Err(ProveFault::BadNodes),
    }
}
