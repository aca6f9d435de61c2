//! Error lines of a schedule that is rejected.

ghost use Rattle.std.specs.Prelude.{◌≡◌, IfOk, string_bytes};
ghost use Rattle.plan_gantt.specs.ScheduleFaultText.{schedule_fault_text_of};

use plan_sgs::SgsFault;
use std::alloc::{AllocError, Global};
use std::fmt::Write;

/// Returns the error line of a schedule that is rejected, as `S1 activity 2 resource 1`, without an
/// end of line; out of memory is `E90 memory`.
pub fn schedule_fault_text(alloc: Global, fault: &SgsFault) -> Result<String, AllocError>
    ensures text { IfOk result (λ text. string_bytes text ≡ schedule_fault_text_of fault.now) }
{
    let mut text = String::new(alloc);
    match fault {
        SgsFault::NoMemory => text.push_str("E90 memory")?,
        SgsFault::NeedsTooMuch { act, res } => write!(text, "S1 activity {act} resource {res}")?,
        SgsFault::NotAList => text.push_str("S2 not a list")?,
        SgsFault::UnknownRule => text.push_str("S3 unknown rule")?,
    }
    Ok(text)
}
