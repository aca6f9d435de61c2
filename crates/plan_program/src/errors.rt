//! The error of an order on files, and the form in which it is printed.

ghost use Rattle.std.specs.Prelude.{◌≡◌};
ghost use Rattle.plan_program.specs.Errors.{form_in, form_of};

use crate::file_log::LogFault;
use crate::hints::{print_error, print_line};
use crate::misuse::print_misuse;
use crate::status::Status;
use plan_cli::Rows;
use plan_errors::{CliFault, Context, error_json};
use plan_formats::Format;
use plan_orders::FileOrder;
use std::alloc::AllocError;
use std::io::Write;

/// The error of an order on files.
#[derive(Drop)]
pub(crate) enum FileFault {
    /// The error of a task, or want of memory or a failed output of a log.
    Task(CliFault),
    /// The error of a log that can't be written. Its line names the cause.
    Log(CliFault),
    /// The name of a log is wrong.
    Usage(String),
}

impl From<CliFault> for FileFault {
    fn from(fault: CliFault) -> FileFault {
        FileFault::Task(fault)
    }
}

impl From<LogFault> for FileFault {
    fn from(fault: LogFault) -> FileFault {
        match fault {
            LogFault::NoMemory => FileFault::Task(CliFault::Memory),
            LogFault::Output => FileFault::Task(CliFault::Output),
            LogFault::Usage(text) => FileFault::Usage(text),
            LogFault::Named(fault) => FileFault::Log(fault),
        }
    }
}

impl From<AllocError> for FileFault {
    fn from(_: AllocError) -> FileFault {
        FileFault::Task(CliFault::Memory)
    }
}

/// The form in which an error is printed.
#[derive(Clone, Copy, Debug, PartialEq, Eq)]
pub(crate) enum Form {
    /// A line, and a hint for it if hints are printed.
    Hinted,
    /// A line that names its cause, so that it has no hint.
    Bare,
    /// A JSON object.
    Json,
    /// An error of the command line.
    Usage,
}

// Returns the form of an error for a command with these rows: JSON, or another form.
fn form_in(rows: Rows, other: Form) -> Form
    ensures { result ≡ form_in rows other }
{
    match rows {
        Rows::In(Format::Json) => Form::Json,
        _ => other,
    }
}

// Returns the form in which the error of a command with these rows is printed.
fn form_of(fault: &FileFault, rows: Rows) -> Form
    ensures { result ≡ form_of fault.now rows }
{
    match fault {
        FileFault::Usage(_) => Form::Usage,
        FileFault::Log(_) => form_in(rows, Form::Bare),
        FileFault::Task(_) => form_in(rows, Form::Hinted),
    }
}

// Returns an error with the cause that the arguments of its order show, if they show it.
fn with_cause(rt: &HostRuntime, order: &FileOrder<'_>, fault: CliFault) -> CliFault {
    let Some(cause) = order.cause(fault.code()) else {
        return fault;
    };
    match cause.to_string(rt.alloc()) {
        Ok(cause) => fault.with_detail(Some(cause)),
        Err(_) => fault,
    }
}

// Prints an error as JSON.
fn print_json_error(rt: &HostRuntime, context: Context<'_>, fault: &CliFault) -> Status {
    if let Ok(text) = error_json(rt.alloc(), context, fault) {
        let _ = rt.stderr().write_all(&text);
    }
    Status::Failed
}

// Prints an error in this form, and returns the status.
fn print_in(rt: &HostRuntime, order: &FileOrder<'_>, form: Form, fault: &CliFault) -> Status {
    match form {
        Form::Hinted => print_error(rt, order.context(), fault),
        Form::Json => print_json_error(rt, order.context(), fault),
        Form::Bare | Form::Usage => {
            print_line(rt, fault);
            Status::Failed
        }
    }
}

/// Prints the error of an order on files, and returns the status.
pub(crate) fn print_fault(
    rt: &HostRuntime,
    order: &FileOrder<'_>,
    rows: Rows,
    fault: FileFault,
) -> Status {
    let form = form_of(&fault, rows);
    match fault {
        FileFault::Task(fault) => print_in(rt, order, form, &with_cause(rt, order, fault)),
        FileFault::Log(fault) => print_in(rt, order, form, &fault),
        FileFault::Usage(text) => print_misuse(rt, text.as_str()),
    }
}

/// Prints the error of arguments for a command with these rows, and returns the status.
pub(crate) fn print_early(rt: &HostRuntime, rows: Rows, fault: &CliFault) -> Status {
    match rows {
        Rows::In(Format::Json) => print_json_error(rt, Context::NONE, fault),
        _ => print_error(rt, Context::NONE, fault),
    }
}
