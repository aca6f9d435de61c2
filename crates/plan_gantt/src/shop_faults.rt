//! Error lines of a shop that is rejected.

ghost use Rattle.std.specs.Prelude.{◌≡◌, IfOk, string_bytes};
ghost use Rattle.plan_gantt.specs.ShopFaultText.{shop_fault_text_of};

use plan_shop::ShopFault;
use std::alloc::{AllocError, Global};
use std::fmt::Write;

/// Returns the error line of a job shop that is rejected, as `S4 machine 0 closed`, without an end
/// of line; out of memory is `E90 memory`.
pub fn shop_fault_text(alloc: Global, fault: &ShopFault) -> Result<String, AllocError>
    ensures text { IfOk result (λ text. string_bytes text ≡ shop_fault_text_of fault.now) }
{
    let mut text = String::new(alloc);
    match fault {
        ShopFault::NoMemory => text.push_str("E90 memory")?,
        ShopFault::UnknownRule => text.push_str("S3 unknown rule")?,
        ShopFault::MachineClosed(machine) => write!(text, "S4 machine {machine} closed")?,
    }
    Ok(text)
}
