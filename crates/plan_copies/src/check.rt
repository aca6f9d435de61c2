//! The check of an office by a copy of its files, which are only read.

ghost use Rattle.std.specs.Prelude.{◌≡◌, ◌⊎◌, ◌+◌, ◌≤◌, Some, [], ℕ, List, Option, IfOk, IfErr};
ghost use Rattle.std.specs.Prelude.{IsErrOf, OnOk};
ghost use Rattle.plan_io.specs.Devices.{most_calls, HasFailed};
ghost use Rattle.plan_serve.specs.CheckRun.{IsPrinted, IsPrintedInPart};
ghost use Rattle.plan_serve.specs.Reports.{IsReportFault};
ghost use Rattle.plan_copies.specs.Stable.{IsStable};
ghost use Rattle.plan_copies.specs.Checks.{IsCheckFault};

use crate::fault::PairFault;
use crate::pair::{Origin, Target, copy_stable};
use plan_io::{MemSink, Sink};
use plan_serve::ServeFault;
use std::alloc::Global;

/// The error of a check by a copy.
#[derive(Clone, Copy, Debug, Drop, PartialEq, Eq)]
pub enum CheckFault {
    /// The files can't be copied.
    Copy(PairFault),
    /// The copy isn't an office's, or its summary can't be written.
    Office(ServeFault),
}

/// The place of a copy that is checked as an office.
pub trait Scratch: Target {
    /// The possible outcomes of a check that writes a summary.
    ghost checks: { Self → Self → Option (List ℕ) → Option (List ℕ) → Type 0 };

    /// The possible outcomes of removing the log.
    ghost drops_log: { Self → Self → Type 0 };

    /// Checks every row of the copy, and writes the number of rows in each table and their digest.
    /// The copy of the log is copied into that of the database.
    fn check<W: Sink>(&mut self, writer: &mut W) -> Result<(), ServeFault>
        ensures checks { OnOk result
            (checks self.old self.new (W.taken writer.old) (W.taken writer.new)) }
        ensures ok { OnOk result (IsPrinted (W.taken writer.old) (W.taken writer.new)) }
        ensures part { IsErrOf result ServeFault.Output
            → IsPrintedInPart (W.taken writer.old) (W.taken writer.new) }
        ensures writes { W.calls writer.new ≤ W.calls writer.old + most_calls }
        ensures silent { IfErr result
            (λ e. (e ≡ ServeFault.Output) ⊎ (writer.new ≡ writer.old)) }
        ensures fine { OnOk result (W.faults writer.new ≡ W.faults writer.old) }
        ensures output { IsErrOf result ServeFault.Output →
            HasFailed (W.calls writer.old) (W.calls writer.new)
            (W.faults writer.old) (W.faults writer.new) }
        ensures which { IfErr result IsReportFault };

    /// Returns whether the copy seems to have the tables of the first version.
    fn is_first(&self) -> bool;

    /// Removes the log of the copy.
    fn drop_log(&mut self) -> Result<(), PairFault>
        ensures drops { OnOk result (drops_log self.old self.new) };
}

/// Checks an office by a copy of its database and log as of one moment, and writes its summary.
/// Returns whether it seems to have the tables of the first version.
pub fn check_copy<O: Origin, S: Scratch, W: Sink>(
    alloc: Global,
    origin: &mut O,
    scratch: &mut S,
    writer: &mut W,
) -> Result<bool, CheckFault>
    // The database and its log stay, and so do its tables and their version.
    ensures same { O.contents origin.new ≡ O.contents origin.old }
    // The summary is that of the copy.
    ensures checks { OnOk result ((first : O) × (empty copied : S)
        × IsStable O.Reader.remaining S.Writer.taken O.reads_database O.reads_log
        S.makes_database S.makes_log first origin.new empty copied
        × S.checks copied scratch.new (W.taken writer.old) (W.taken writer.new)) }
    ensures ok { OnOk result (IsPrinted (W.taken writer.old) (W.taken writer.new)) }
    ensures part { IsErrOf result (CheckFault.Office ServeFault.Output)
        → IsPrintedInPart (W.taken writer.old) (W.taken writer.new) }
    ensures writes { W.calls writer.new ≤ W.calls writer.old + most_calls }
    // Nothing is written if it fails for another cause than the output.
    ensures silent { IfErr result
        (λ e. (e ≡ CheckFault.Office ServeFault.Output) ⊎ (writer.new ≡ writer.old)) }
    ensures fine { OnOk result (W.faults writer.new ≡ W.faults writer.old) }
    ensures which { IfErr result IsCheckFault }
{
    copy_stable(alloc, origin, scratch).map_err(CheckFault::Copy)?;
    let is_first = scratch.is_first();
    scratch.check(writer).map_err(CheckFault::Office)?;
    Ok(is_first)
}

// Returns the summary of a copy.
fn summary_of<S: Scratch>(alloc: Global, scratch: &mut S) -> Result<Vec<u8>, CheckFault>
    ensures checks { IfOk result
        (λ text. S.checks scratch.old scratch.new (Some []) (Some text.items)) }
    ensures printed { IfOk result (λ text. IsPrinted (Some []) (Some text.items)) }
{
    let mut writer = MemSink::new(Vec::new(alloc));
    match scratch.check(&mut writer) {
        Ok(()) => Ok(writer.into_bytes()),
        // The summary is in memory.
        Err(ServeFault::Output) => Err(CheckFault::Office(ServeFault::Memory)),
        Err(fault) => Err(CheckFault::Office(fault)),
    }
}

/// Copies a database and its log as of one moment, and checks the copy with its log and without it.
/// Returns the summary.
pub fn copy_checked<O: Origin, S: Scratch>(
    alloc: Global,
    origin: &mut O,
    scratch: &mut S,
) -> Result<Vec<u8>, CheckFault>
    ensures same { O.contents origin.new ≡ O.contents origin.old }
    // The copy without its log has the same summary.
    ensures checks { IfOk result (λ text. (first : O) × (empty copied merged alone : S)
        × IsStable O.Reader.remaining S.Writer.taken O.reads_database O.reads_log
        S.makes_database S.makes_log first origin.new empty copied
        × S.checks copied merged (Some []) (Some text.items)
        × S.drops_log merged alone
        × S.checks alone scratch.new (Some []) (Some text.items)) }
    ensures printed { IfOk result (λ text. IsPrinted (Some []) (Some text.items)) }
{
    copy_stable(alloc, origin, scratch).map_err(CheckFault::Copy)?;
    let text = summary_of(alloc, scratch)?;
    scratch.drop_log().map_err(CheckFault::Copy)?;
    let again = summary_of(alloc, scratch)?;
    if again.as_slice() == text.as_slice() {
        return Ok(text);
    }
    Err(CheckFault::Office(ServeFault::Store))
}
