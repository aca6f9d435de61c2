//! Error lines of a search that is rejected.

ghost use Rattle.std.specs.Prelude.{◌≡◌};
ghost use Rattle.plan_gantt.specs.ExactFaultText.{exact_fault_text_of};

use plan_exact::ExactFault;

/// Returns the error line of a search that is rejected, as `S6 budget`, without an end of line; out
/// of memory is `E90 memory`. Allocates nothing.
pub fn exact_fault_text(fault: &ExactFault) -> &'static str
    ensures text { result.now ≡ exact_fault_text_of fault.now }
{
    match fault {
        ExactFault::NoMemory => "E90 memory",
        ExactFault::TooLarge => "S5 too large",
        ExactFault::BadBudget => "S6 budget",
    }
}
