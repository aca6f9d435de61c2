//! `plan verify`: the check of the log of a search.

use plan_cli::{Inputs, Subject, SystemInputs, file_refusal, need_refusal, read_named, readable};
use plan_errors::{About, CliFault, Code, Key, Part, refuse};
use plan_io::{Source, StdSink, write_whole};
use plan_sgs::SgsFault;
use plan_verify::{LogFault, VerifyFault, verify_shop_text, verify_text};
use std::alloc::Global;
use std::io;

// Returns the error of a project. It names no rule and no list of activities.
fn project_fault(alloc: Global, fault: SgsFault) -> CliFault {
    match fault {
        SgsFault::NeedsTooMuch { act, res } => need_refusal(alloc, act, res),
        SgsFault::NoMemory | SgsFault::NotAList | SgsFault::UnknownRule => CliFault::Memory,
    }
}

// Returns the error of a line of a log.
fn line_fault(alloc: Global, code: Code, line: u64) -> CliFault {
    match Vec::from_array(alloc, [Part::Number(Key::Line, line)]) {
        Ok(parts) => refuse(code, About::Other, Ok(parts)),
        Err(_) => CliFault::Memory,
    }
}

// Returns the error of a log.
fn log_fault(alloc: Global, fault: LogFault) -> CliFault {
    match fault {
        LogFault::NoMemory => CliFault::Memory,
        LogFault::Device => CliFault::Input(About::Log),
        LogFault::DoesNotFollow { line } => line_fault(alloc, Code::DoesNotFollow, line),
        LogFault::Unreadable { line } => line_fault(alloc, Code::BadLogLine, line),
    }
}

// Returns the project in a file, or the instance with a name.
fn subject_named(instance: Option<&str>) -> Subject<'_> {
    match instance {
        Some(instance) => Subject::Shop(instance),
        None => Subject::Project(&[]),
    }
}

// Returns the line with the verdict of a log on the problem in a file that is no list.
fn shown<R: Source>(
    alloc: Global,
    subject: Subject<'_>,
    file: &[u8],
    log: &mut R,
) -> Result<String, VerifyFault> {
    match subject {
        Subject::Shop(instance) => verify_shop_text(alloc, file, instance, log),
        Subject::Project(_) => verify_text(alloc, file, log),
    }
}

// Returns the line with the verdict of a log on the problem in a file, which may be a list.
fn verified<R: Source>(
    alloc: Global,
    file: &[u8],
    instance: Option<&str>,
    log: &mut R,
) -> Result<String, CliFault> {
    let read = readable(alloc, subject_named(instance), file)?;
    let text = read.text(file);
    shown(alloc, read.subject, text, log).map_err(|fault| match fault {
        VerifyFault::File(fault) => file_refusal(alloc, &fault, text),
        VerifyFault::Project(fault) => project_fault(alloc, fault),
        VerifyFault::Log(fault) => log_fault(alloc, fault),
    })
}

/// Writes the verdict of the log with this name on the problem in a file.
pub(crate) fn do_verify(
    rt: &HostRuntime,
    file: &str,
    instance: Option<&str>,
    log: &str,
) -> Result<(), CliFault> {
    let inputs = SystemInputs::new(rt);
    let bytes = read_named(rt.alloc(), &inputs, About::Plan, file)?;
    let text = if log == "-" {
        verified(rt.alloc(), &bytes, instance, &mut inputs.standard())?
    } else {
        verified(
            rt.alloc(),
            &bytes,
            instance,
            &mut inputs.open(log, About::Log)?,
        )?
    };
    let mut writer = StdSink::new(io::writer(rt));
    write_whole(&mut writer, text.as_bytes()).map_err(|_| CliFault::Output)
}
