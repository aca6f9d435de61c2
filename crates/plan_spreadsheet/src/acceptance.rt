//! Files that are read as they are.

ghost use Rattle.std.specs.Prelude.{◌≡◌, map, IfOk, IsFalse, IsTrue};
ghost use Rattle.plan_table.specs.Kinds.{Decides};
ghost use Rattle.plan_table.specs.Overrides.{override_of};
ghost use Rattle.plan_spreadsheet.specs.PlainLists as spec;

use plan_table::{Override, ReadError, TableCode, TableFault, is_plan_file, read_sound_table};
use std::alloc::{AllocError, Global};

// Whether an error is that of a cycle.
fn is_cycle(fault: &TableFault) -> bool
    ensures { Decides result (fault.now.code ≡ TableCode.Cycle) }
{
    match fault.code {
        TableCode::Cycle => true,
        _ => false,
    }
}

/// Whether a text is refused as a list, and not for a cycle.
#[tactic(auto, using(crate::proofs::AcceptanceLemmas::not_refused, crate::proofs::AcceptanceLemmas::refused_yes, crate::proofs::AcceptanceLemmas::refused_no))]
pub fn is_refused(
    alloc: Global,
    overrides: &[Override<'_>],
    text: &[u8],
) -> Result<bool, AllocError>
    ensures yes { IfOk result (λ is. IsTrue is
        → spec.IsRefused (map override_of overrides.now) text.now) }
    ensures no { IfOk result (λ is. IsFalse is
        → spec.IsRefused (map override_of overrides.now) text.now → ⊥) }
{
    match read_sound_table(alloc, overrides, text) {
        Ok(_) => Ok(false),
        Err(ReadError::Memory) => Err(AllocError),
        Err(ReadError::Fault(fault)) => Ok(!is_cycle(&fault)),
    }
}

/// Whether a file is read as it is: as a project, as a job shop, or as a list.
#[tactic(auto, using(crate::proofs::AcceptanceLemmas::file_stays))]
pub fn is_readable(
    alloc: Global,
    overrides: &[Override<'_>],
    bytes: &[u8],
) -> Result<bool, AllocError>
    ensures yes { IfOk result (λ is. IsTrue is
        → spec.IsReadable (map override_of overrides.now) bytes.now) }
    ensures no { IfOk result (λ is. IsFalse is
        → spec.IsReadable (map override_of overrides.now) bytes.now → ⊥) }
{
    let is_file = is_plan_file(alloc, bytes)?;
    if is_file {
        return Ok(true);
    }
    let refused = is_refused(alloc, overrides, bytes)?;
    Ok(!refused)
}
