//! `plan check-office`: the check of an office in a file by a scratch copy.

ghost use Rattle.std.specs.Prelude.{◌≡◌, ◌⊎◌, ◌+◌, ◌≤◌, IfErr, IsErrOf, OnOk};
ghost use Rattle.plan_io.specs.Devices.{most_calls};
ghost use Rattle.plan_serve.specs.CheckRun.{IsPrinted, IsPrintedInPart};
ghost use Rattle.plan_copies.specs.Checks.{IsCheckFault};

use crate::check::{CheckFault, check_copy};
use crate::fault::PairFault;
use crate::folders::Room;
use crate::lines::{CopyFault, store_fault};
use crate::named::{NamedCopy, NamedPair, target_fault};
use crate::owner::check_folder;
use plan_io::Sink;
use plan_serve::ServeFault;
use std::env;
use std::io::ErrorKind;

/// Returns the folder of scratch copies: the given one, else the folder that TMPDIR names, else
/// /tmp. Fails if this is root, and the given folder is another user's.
pub fn scratch_folder(rt: &HostRuntime, given: Option<&str>) -> Result<String, CopyFault> {
    let alloc = rt.alloc();
    if let Some(folder) = given {
        check_folder(rt, folder, "the folder ", folder, "check-office")?;
        return Ok(folder.to_string(alloc)?);
    }
    match env::temp_dir(rt) {
        Ok(folder) => Ok(folder.as_str().to_string(alloc)?),
        Err(error) if error.kind() == ErrorKind::OutOfMemory => {
            Err(CopyFault::Office(ServeFault::Memory))
        }
        Err(_) => Err(store_fault(alloc, "the name in ", "TMPDIR", " isn't UTF-8; use --in")),
    }
}

// Checks the office in a file by a copy in a folder of its own.
fn check_in<W: Sink>(
    rt: &HostRuntime,
    path: &str,
    room: &Room<'_>,
    writer: &mut W,
) -> Result<bool, CheckFault>
    ensures ok { OnOk result (IsPrinted (W.taken writer.old) (W.taken writer.new)) }
    ensures part { IsErrOf result (CheckFault.Office ServeFault.Output)
        → IsPrintedInPart (W.taken writer.old) (W.taken writer.new) }
    ensures writes { W.calls writer.new ≤ W.calls writer.old + most_calls }
    ensures silent { IfErr result
        (λ e. (e ≡ CheckFault.Office ServeFault.Output) ⊎ (writer.new ≡ writer.old)) }
    ensures fine { OnOk result (W.faults writer.new ≡ W.faults writer.old) }
    ensures which { IfErr result IsCheckFault }
{
    let mut pair = NamedPair::find(rt, path).map_err(CheckFault::Copy)?;
    let Ok(place) = room.path_of("office.db") else {
        return Err(CheckFault::Copy(PairFault::Memory));
    };
    let Ok(copy) = NamedCopy::at(rt, place.as_str()) else {
        return Err(CheckFault::Copy(PairFault::Memory));
    };
    let mut copy = copy;
    check_copy(rt.alloc(), &mut pair, &mut copy, writer)
}

/// Checks every row of the office in the file of this name by a copy of it in this folder, which is
/// removed at the end. It writes the number of rows in each table and a digest of the rows. The
/// file and its log are only read. Returns whether it seems to have the tables of the first
/// version.
pub fn check_on_file<W: Sink>(
    rt: &HostRuntime,
    path: &str,
    folder: &str,
    writer: &mut W,
) -> Result<bool, CheckFault>
    ensures ok { OnOk result (IsPrinted (W.taken writer.old) (W.taken writer.new)) }
    ensures part { IsErrOf result (CheckFault.Office ServeFault.Output)
        → IsPrintedInPart (W.taken writer.old) (W.taken writer.new) }
    ensures writes { W.calls writer.new ≤ W.calls writer.old + most_calls }
    // Nothing is written if it fails for another cause than the output.
    ensures silent { IfErr result
        (λ e. (e ≡ CheckFault.Office ServeFault.Output) ⊎ (writer.new ≡ writer.old)) }
    ensures fine { OnOk result (W.faults writer.new ≡ W.faults writer.old) }
    ensures which { IfErr result IsCheckFault }
{
    let room = match Room::make(rt, folder, "plan-check-") {
        Ok(room) => room,
        Err(error) => return Err(CheckFault::Copy(target_fault(&error))),
    };
    let done = check_in(rt, path, &room, writer);
    room.remove();
    done
}
