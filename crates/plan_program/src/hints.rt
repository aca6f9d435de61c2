//! Errors and their hints on standard error.

use crate::status::Status;
use plan_errors::{CliFault, Context, hint};
use std::alloc::AllocError;
use std::env;
use std::io::IsTerminal;

/// Returns whether PLAN_HINTS asks for hints: 1 does, 0 asks for none.
pub fn asked_hints(rt: &HostRuntime) -> Option<bool> {
    let asked = env::var(rt, "PLAN_HINTS").ok()?;
    match asked.as_str() {
        "1" => Some(true),
        "0" => Some(false),
        _ => None,
    }
}

/// Returns whether hints are printed. PLAN_HINTS decides if it is 1 or 0, else they are for a
/// terminal only.
pub fn has_hints(rt: &HostRuntime) -> bool {
    asked_hints(rt).unwrap_or_else(|| rt.stderr().is_terminal())
}

/// Prints a hint, if there is one.
pub fn print_hint(rt: &HostRuntime, hint: Result<Option<String>, AllocError>) {
    if let Ok(Some(text)) = hint {
        let _ = eprintln!(rt; "{text}");
    }
}

/// Prints the line of an error, or that of memory if there is none for it.
pub(crate) fn print_line(rt: &HostRuntime, fault: &CliFault) {
    let _ = match fault.line(rt.alloc()) {
        Ok(line) => eprintln!(rt; "{line}"),
        Err(_) => eprintln!(rt; "E90 memory"),
    };
}

/// Prints the line of an error and, if hints are printed, its hint.
pub(crate) fn print_error(rt: &HostRuntime, context: Context<'_>, fault: &CliFault) -> Status {
    print_line(rt, fault);
    if has_hints(rt) {
        print_hint(rt, hint(rt.alloc(), context, fault).map(Some));
    }
    Status::Failed
}
