//! The causes for which the file of an office can't be opened.

ghost use Rattle.std.specs.Prelude.{IfErr, OnOk};
ghost use Rattle.plan_serve.specs.Causes.{IsFileCause, IsFileFault, IsLookFault, IsOpenCause, IsThere};

use plan_door::ServeFault;
use sqlite::Start;
use sqlite_std_file::OpenError;
use std::fs::Metadata;
use std::io::{self, ErrorKind};

// The least size of a database in bytes: one page of the least size.
const SHORTEST: u64 = 512;

// The fault of a file, from the system's error.
fn file_fault(kind: ErrorKind) -> ServeFault
    ensures { IsFileCause kind result }
{
    if kind == ErrorKind::NotFound || kind == ErrorKind::NotADirectory {
        return ServeFault::Missing;
    }
    if kind == ErrorKind::PermissionDenied || kind == ErrorKind::ReadOnlyFilesystem {
        return ServeFault::Denied;
    }
    if kind == ErrorKind::OutOfMemory {
        return ServeFault::Memory;
    }
    ServeFault::Store
}

/// Fails if the system's answer for a name rules out an office: the file doesn't exist, isn't
/// accessible, or is shorter than any database. Nothing is opened, so no file is created or grows.
pub(crate) fn check_name(looked: io::Result<Metadata>) -> Result<(), ServeFault>
    ensures there { OnOk result (IsThere looked) }
    ensures which { IfErr result (IsLookFault looked) }
{
    let found = looked.map_err(|error| file_fault(error.kind()))?;
    if found.is_file() && found.len() < SHORTEST {
        return Err(ServeFault::NotOurs);
    }
    Ok(())
}

// The fault of the files of a database, from the result of opening them. If they can be opened, the
// store refused them.
fn opening_fault<T: Drop>(opened: Result<T, OpenError>) -> ServeFault
    ensures { IsOpenCause opened result }
{
    match opened {
        Err(OpenError::Busy) => ServeFault::Locked,
        Err(OpenError::OutOfMemory) => ServeFault::Memory,
        Err(OpenError::Io(error)) => file_fault(error.kind()),
        Err(OpenError::HotJournal) | Ok(_) => ServeFault::Store,
    }
}

/// Returns the cause for which the store refused the files of this name: it opens them once more.
#[tactic(auto, using(crate::proofs::CauseLemmas::open_fault))]
pub(crate) fn refusal<F: Start>(rt: &HostRuntime, path: &str, start: F) -> ServeFault
    ensures { IsFileFault result }
{
    opening_fault(sqlite_std_file::open(rt, path, start))
}
