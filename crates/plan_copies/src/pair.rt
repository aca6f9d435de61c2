//! A copy of a database and its log as of one moment.

ghost use Rattle.std.specs.Prelude.{◌≡◌, ◌≢◌, ◌+◌, ◌≤◌, ℕ, false, List, Option, IfOk, OnOk, IfErr};
ghost use Rattle.std.specs.Prelude.{IsErrOf, IsTrue};
ghost use Rattle.plan_copies.specs.Stable.{IsStable, ReadsHeader, CopiesDatabase, CopiesLog};
ghost use Rattle.plan_copies.specs.Stable.{CopiesLogOf};

use crate::bytes::copy_all;
use crate::fault::{PairFault, read_fault};
use plan_io::{Sink, Source, read_beyond};
use std::alloc::Global;

// The length of the header of a log in bytes.
const HEADER: usize = 32;

/// The most copies of a pair that are tried.
pub const MOST_TRIES: u32 = 100;

/// A database and its log, which are only read.
pub trait Origin {
    type Reader: Source + Drop;

    /// The contents of the database and of its log.
    ghost contents: { Self → List ℕ × List ℕ };

    /// The number of times that one of the files was to be opened.
    ghost opened: { Self → ℕ };

    /// The possible outcomes of opening the database.
    ghost reads_database: { Self → Self → Self.Reader → Type 0 };

    /// The possible outcomes of opening the log. It may not exist.
    ghost reads_log: { Self → Self → Option Self.Reader → Type 0 };

    /// Opens the database, at its first byte.
    fn open_database(&mut self) -> Result<Self::Reader, PairFault>
        ensures same { contents self.new ≡ contents self.old }
        ensures counted { opened self.new ≡ opened self.old + 1 }
        ensures fair { IfErr result (λ e. e ≢ PairFault.Restless) }
        ensures reads { IfOk result (reads_database self.old self.new) };

    /// Opens the log, at its first byte.
    fn open_log(&mut self) -> Result<Option<Self::Reader>, PairFault>
        ensures same { contents self.new ≡ contents self.old }
        ensures counted { opened self.new ≡ opened self.old + 1 }
        ensures fair { IfErr result (λ e. e ≢ PairFault.Restless) }
        ensures reads { IfOk result (reads_log self.old self.new) };
}

/// The place of the copy of a database and its log.
pub trait Target {
    type Writer: Sink + Drop;

    /// The possible outcomes of creating the database.
    ghost makes_database: { Self → Self → Self.Writer → Type 0 };

    /// The possible outcomes of creating the log.
    ghost makes_log: { Self → Self → Self.Writer → Type 0 };

    /// Creates the empty file of the database, and removes that of the log.
    fn create_database(&mut self) -> Result<Self::Writer, PairFault>
        ensures fair { IfErr result (λ e. e ≢ PairFault.Restless) }
        ensures makes { IfOk result (makes_database self.old self.new) };

    /// Creates the empty file of the log.
    fn create_log(&mut self) -> Result<Self::Writer, PairFault>
        ensures fair { IfErr result (λ e. e ≢ PairFault.Restless) }
        ensures makes { IfOk result (makes_log self.old self.new) };
}

// Reads the header of the log. It is empty if there is no log.
fn header_of<O: Origin>(alloc: Global, origin: &mut O) -> Result<Vec<u8>, PairFault>
    ensures same { O.contents origin.new ≡ O.contents origin.old }
    ensures counted { O.opened origin.new ≡ O.opened origin.old + 1 }
    ensures fair { IfErr result (λ e. e ≢ PairFault.Restless) }
    ensures header { IfOk result (λ header. ReadsHeader O.Reader.remaining O.reads_log
        origin.old origin.new header.items) }
{
    let Some(log) = origin.open_log()? else {
        return Ok(Vec::new(alloc));
    };
    let mut log = log;
    read_beyond(alloc, &mut log, HEADER - 1).map_err(read_fault)
}

// Copies the database.
fn copy_database<O: Origin, T: Target>(origin: &mut O, target: &mut T) -> Result<(), PairFault>
    ensures same { O.contents origin.new ≡ O.contents origin.old }
    ensures counted { O.opened origin.new ≡ O.opened origin.old + 1 }
    ensures fair { IfErr result (λ e. e ≢ PairFault.Restless) }
    ensures copies { OnOk result (CopiesDatabase O.Reader.remaining T.Writer.taken
        O.reads_database T.makes_database origin.old origin.new target.old target.new) }
{
    let mut reader = origin.open_database()?;
    let mut writer = target.create_database()?;
    copy_all(&mut reader, &mut writer)
}

// Copies the log. Returns whether there is one.
fn copy_log<O: Origin, T: Target>(origin: &mut O, target: &mut T) -> Result<bool, PairFault>
    ensures same { O.contents origin.new ≡ O.contents origin.old }
    ensures counted { O.opened origin.new ≡ O.opened origin.old + 1 }
    ensures fair { IfErr result (λ e. e ≢ PairFault.Restless) }
    ensures copies { IfOk result (λ is_there. IsTrue is_there →
        CopiesLog O.Reader.remaining T.Writer.taken
        O.reads_log T.makes_log origin.old origin.new target.old target.new) }
{
    let Some(log) = origin.open_log()? else {
        return Ok(false);
    };
    let mut log = log;
    let mut writer = target.create_log()?;
    copy_all(&mut log, &mut writer)?;
    Ok(true)
}

// Copies the log if it had this header. Returns whether it is still there.
fn copy_log_of<O: Origin, T: Target>(
    header: &[u8],
    origin: &mut O,
    target: &mut T,
) -> Result<bool, PairFault>
    ensures same { O.contents origin.new ≡ O.contents origin.old }
    ensures counted { O.opened origin.new ≤ O.opened origin.old + 1 }
    ensures fair { IfErr result (λ e. e ≢ PairFault.Restless) }
    ensures gone { IfOk result (λ is_there.
        is_there ≡ false → O.opened origin.new ≡ O.opened origin.old + 1) }
    ensures least { O.opened origin.old ≤ O.opened origin.new }
    ensures copies { IfOk result (λ is_there. IsTrue is_there →
        CopiesLogOf O.Reader.remaining T.Writer.taken
        O.reads_log T.makes_log header.now origin.old origin.new target.old target.new) }
{
    if header.is_empty() {
        return Ok(true);
    }
    copy_log(origin, target)
}

// Copies the database and its log once. Returns whether the log didn't begin anew meanwhile.
fn copy_once<O: Origin, T: Target>(
    alloc: Global,
    origin: &mut O,
    target: &mut T,
) -> Result<bool, PairFault>
    ensures same { O.contents origin.new ≡ O.contents origin.old }
    ensures counted { O.opened origin.new ≤ O.opened origin.old + 4 }
    ensures fair { IfErr result (λ e. e ≢ PairFault.Restless) }
    ensures tried { OnOk result (O.opened origin.old + 3 ≤ O.opened origin.new) }
    ensures stable { IfOk result (λ is_stable. IsTrue is_stable →
        IsStable O.Reader.remaining T.Writer.taken O.reads_database O.reads_log
        T.makes_database T.makes_log origin.old origin.new target.old target.new) }
{
    let before = header_of(alloc, origin)?;
    copy_database(origin, target)?;
    if !copy_log_of(&before, origin, target)? {
        return Ok(false);
    }
    let after = header_of(alloc, origin)?;
    Ok(after.as_slice() == before.as_slice())
}

/// Copies a database and its log as of one moment. The server writes a page into the database only
/// after it is in the log, and a log that begins anew has another header. So if the header is the
/// same before and after the copy, the copies have each commit from before the copy. Else it copies
/// both again, at most [`MOST_TRIES`] times.
pub fn copy_stable<O: Origin, T: Target>(
    alloc: Global,
    origin: &mut O,
    target: &mut T,
) -> Result<(), PairFault>
    // The database and its log stay.
    ensures same { O.contents origin.new ≡ O.contents origin.old }
    // Both files were copied between two reads of the same header.
    ensures stable { OnOk result ((first : O) × (empty : T) ×
        IsStable O.Reader.remaining T.Writer.taken O.reads_database O.reads_log
        T.makes_database T.makes_log first origin.new empty target.new) }
    ensures tries { O.opened origin.new ≤ O.opened origin.old + 400 }
    // It gives up after 100 copies only.
    ensures restless { IsErrOf result PairFault.Restless →
        O.opened origin.old + 300 ≤ O.opened origin.new }
{
    for _ in 0..MOST_TRIES {
        if copy_once(alloc, origin, target)? {
            return Ok(());
        }
    }
    Err(PairFault::Restless)
}
