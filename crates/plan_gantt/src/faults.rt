//! Texts of file faults.

ghost use Rattle.std.specs.Prelude.{◌≡◌, ◌++◌, IfOk, OnOk, string_bytes};
ghost use Rattle.plan_gantt.specs.FaultText.{code_name_of, place_text, spaced_numbers, file_fault_text_of};

use plan_psplib::{FileCode, FileFault};
use std::alloc::{AllocError, Global};
use std::fmt::Write;

// Returns the code of a check in messages.
fn code_name(code: FileCode) -> &'static str
    ensures { result.now ≡ code_name_of code }
{
    match code {
        FileCode::TooLong => "F1",
        FileCode::NotText => "F2",
        FileCode::MissingHead => "F3",
        FileCode::Unsupported => "F4",
        FileCode::MissingSection => "F5",
        FileCode::BadNumber => "F6",
        FileCode::JobOrder => "F7",
        FileCode::Modes => "F8",
        FileCode::Count => "F9",
        FileCode::Limit => "F10",
        FileCode::Double => "F11",
        FileCode::Cycle => "F12",
        FileCode::NoInstance => "F13",
        FileCode::BadMachine => "F14",
        FileCode::Memory => "E90",
    }
}

// A check and its line.
fn push_place(text: &mut String, code: FileCode, line: u64) -> Result<(), AllocError>
    ensures { OnOk result (string_bytes text.new ≡ string_bytes text.old ++ place_text code line) }
{
    let name = code_name(code);
    write!(text, "{name} line {line}")
}

// Appends numbers, a space before each.
fn push_spaced(text: &mut String, numbers: &[u32]) -> Result<(), AllocError>
    ensures { OnOk result
        (string_bytes text.new ≡ string_bytes text.old ++ spaced_numbers numbers.now) }
{
    for n in numbers {
        write!(text, " {n}")?;
    }
    Ok(())
}

/// Returns the error line of a file, such as `F9 line 31`, without a line feed. For a cycle it also
/// lists the activities of the cycle, as in `F12 line 17 cycle 3 4`. Out of memory is `E90 memory`.
pub fn file_fault_text(alloc: Global, fault: &FileFault) -> Result<String, AllocError>
    ensures text { IfOk result (λ text. string_bytes text ≡ file_fault_text_of fault.now) }
{
    let mut text = String::new(alloc);
    match fault.code {
        FileCode::Memory => text.push_str("E90 memory")?,
        FileCode::Cycle => {
            push_place(&mut text, FileCode::Cycle, fault.line)?;
            text.push_str(" cycle")?;
            push_spaced(&mut text, &fault.cycle)?;
        }
        other => push_place(&mut text, other, fault.line)?,
    }
    Ok(text)
}
