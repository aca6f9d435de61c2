//! `plan restore`: a copy of an office in the place of its database.

use crate::backup::{digest_in, is_folder, print};
use crate::check::{CheckFault, copy_checked};
use crate::fault::PairFault;
use crate::folders::{Room, folder_of, stamp, stem_of};
use crate::lines::{CopyFault, copy_fault, office_fault, store_fault};
use crate::named::{NamedCopy, NamedPair, target_fault};
use crate::orphans::check_orphans;
use crate::owner::check_owner;
use crate::plain::{copy_access, open_plain};
use crate::replacement::{Replacement, SUFFIXES};
use crate::settle::settle_from;
use crate::strays::{has_log, remove_stray_log};
use plan_io::{MemSink, Sink};
use plan_serve::ServeFault;
use sqlite::{FileFrom, Files, Unknown};
use sqlite_std_file::OpenError;
use std::fs;
use std::io::{self, ErrorKind};

// The start of the name of the folder in which a database is made.
const ROOM: &str = ".plan-restore-";

// The locked files of a database, if there is one.
type Locks = Option<Files<FileFrom<Unknown>>>;

// A database whose log was copied into it: its locked files, and its summary.
#[derive(Drop)]
struct Settled {
    files: Files<FileFrom<Unknown>>,
    summary: Vec<u8>,
}

// Returns the error of a database that another program has locked.
fn busy_fault(rt: &HostRuntime, database: &str) -> CopyFault {
    let rest = " is open in another program; stop its server";
    store_fault(rt.alloc(), "", database, rest)
}

// Returns the error of a database whose files can't be locked.
fn lock_fault(rt: &HostRuntime, error: &OpenError, database: &str) -> CopyFault {
    let alloc = rt.alloc();
    match error {
        OpenError::Busy => busy_fault(rt, database),
        OpenError::OutOfMemory => CopyFault::Office(ServeFault::Memory),
        OpenError::HotJournal => store_fault(
            alloc,
            "",
            database,
            " has a journal of sqlite3; open it once in sqlite3",
        ),
        OpenError::Io(error) if error.kind() == ErrorKind::PermissionDenied => {
            office_fault(alloc, ServeFault::Denied, database)
        }
        OpenError::Io(_) => store_fault(
            alloc,
            "",
            database,
            " can't be locked; it may have a second name",
        ),
    }
}

// Locks the files of a database, so that no server can open them. An empty log that this makes is
// removed again.
fn lock(rt: &HostRuntime, database: &str) -> Result<Locks, CopyFault> {
    check_orphans(rt, database)?;
    if fs::symlink_metadata(rt, database).is_err() {
        return Ok(None);
    }
    let log = format!(in rt.alloc(); "{database}-wal")?;
    let had_log = fs::symlink_metadata(rt, log.as_str()).is_ok();
    let files = match sqlite_std_file::open(rt, database, Unknown) {
        Ok(files) => files,
        Err(error) => return Err(lock_fault(rt, &error, database)),
    };
    if !had_log {
        let _ = fs::remove_file(rt, log.as_str());
    }
    Ok(Some(files))
}

// Returns the error of a folder in which nothing can be made.
fn room_fault(rt: &HostRuntime, error: &io::Error, database: &str) -> CopyFault {
    let alloc = rt.alloc();
    match error.kind() {
        ErrorKind::PermissionDenied | ErrorKind::ReadOnlyFilesystem => {
            office_fault(alloc, ServeFault::Denied, database)
        }
        _ => {
            let fault = CheckFault::Copy(target_fault(error));
            copy_fault(alloc, fault, database, folder_of(database))
        }
    }
}

// Returns whether two names lead to the same file.
fn are_same(rt: &HostRuntime, one: &str, other: &str) -> bool {
    match (fs::canonicalize(rt, one), fs::canonicalize(rt, other)) {
        (Ok(one), Ok(other)) => one.as_str() == other.as_str(),
        _ => false,
    }
}

// Fails if the names of a copy and a database can't be those of a restore.
fn check_names(rt: &HostRuntime, copy: &str, database: &str) -> Result<(), CopyFault> {
    let alloc = rt.alloc();
    let folder = folder_of(database);
    if !is_folder(rt, folder) {
        return Err(store_fault(alloc, "there is no folder ", folder, "; check the name"));
    }
    if fs::metadata(rt, database).is_ok_and(|found| !found.is_file()) {
        return Err(store_fault(alloc, "", database, " isn't a file; check the name"));
    }
    if are_same(rt, copy, database) {
        return Err(store_fault(
            alloc,
            "the copy is ",
            database,
            " itself; name another file",
        ));
    }
    Ok(())
}

// Gives a new file the mode and the owner of the database, if there is one, and writes it to the
// disk.
fn give_access(rt: &HostRuntime, file: &str, database: &str) -> io::Result<()> {
    let file = open_plain(rt, file)?;
    if let Ok(found) = fs::symlink_metadata(rt, database) {
        copy_access(&found, &file)?;
    }
    file.sync_all()
}

// Copies a copy into a folder of its own, and tests it. Returns the path and the summary.
fn prepare(
    rt: &HostRuntime,
    copy: &str,
    database: &str,
    room: &Room<'_>,
) -> Result<(String, Vec<u8>), CopyFault> {
    let (alloc, folder) = (rt.alloc(), folder_of(database));
    let file = room.path_of("office.db")?;
    let mut pair = NamedPair::find(rt, copy).map_err(|fault| copy_fault(
        alloc,
        CheckFault::Copy(fault),
        copy,
        folder,
    ))?;
    let mut made = NamedCopy::at(rt, file.as_str())?;
    let summary = copy_checked(alloc, &mut pair, &mut made).map_err(|fault| copy_fault(
        alloc, fault, copy, folder,
    ))?;
    if give_access(rt, file.as_str(), database).is_err() {
        let fault = CheckFault::Copy(PairFault::Unwritten);
        return Err(copy_fault(alloc, fault, copy, folder));
    }
    Ok((file, summary))
}

// Returns the name that the old database gets.
fn old_name(rt: &HostRuntime, database: &str) -> Result<String, CopyFault> {
    let alloc = rt.alloc();
    let (stem, time) = (stem_of(database), stamp(rt)?);
    let time = time.as_str();
    let old = format!(in alloc; "{stem}-before-{time}.db")?;
    let name = old.as_str();
    for suffix in SUFFIXES {
        let path = format!(in alloc; "{name}{suffix}")?;
        if fs::symlink_metadata(rt, path.as_str()).is_ok() {
            return Err(store_fault(alloc, "", path.as_str(), " exists; wait a second"));
        }
    }
    Ok(old)
}

// Returns the code of an error.
fn code_of(fault: CheckFault) -> &'static str {
    match fault {
        CheckFault::Office(fault) => fault.line(),
        CheckFault::Copy(PairFault::Memory) => ServeFault::Memory.line(),
        CheckFault::Copy(_) => ServeFault::Store.line(),
    }
}

// Copies the log of a database into it, and closes its files. Returns nothing if the database isn't
// a sound office.
fn close_old(rt: &HostRuntime, database: &str) -> Result<Option<Settled>, CopyFault> {
    let mut text = MemSink::new(Vec::new(rt.alloc()));
    let looked = fs::metadata(rt, database);
    let (done, closed) = settle_from(rt, database, looked, Unknown, &mut text);
    let files = match closed {
        Some(closed) => closed.ok(),
        None => None,
    };
    match done {
        Ok(()) => {}
        Err(ServeFault::Locked) => return Err(busy_fault(rt, database)),
        // The text is in memory.
        Err(ServeFault::Memory | ServeFault::Output) => {
            return Err(CopyFault::Office(ServeFault::Memory));
        }
        Err(_) => return Ok(None),
    }
    let summary = text.into_bytes();
    Ok(files.map(|files| Settled { files, summary }))
}

// The same. If the database isn't a sound office, no new log stays beside it.
fn settle_old(rt: &HostRuntime, database: &str) -> Result<Option<Settled>, CopyFault> {
    let had_log = has_log(rt, database);
    let settled = close_old(rt, database)?;
    if settled.is_none() && !had_log {
        remove_stray_log(rt, database);
    }
    Ok(settled)
}

// Returns the summary of a database that got another name, or the error of its check.
fn renamed_summary(rt: &HostRuntime, old: &str, room: &Room<'_>) -> Result<Vec<u8>, CheckFault> {
    let no_memory = CheckFault::Copy(PairFault::Memory);
    let file = room.path_of("before.db").map_err(|_| no_memory)?;
    let mut pair = NamedPair::find(rt, old).map_err(CheckFault::Copy)?;
    let mut copy = NamedCopy::at(rt, file.as_str()).map_err(|_| no_memory)?;
    copy_checked(rt.alloc(), &mut pair, &mut copy)
}

// Returns the line about a database that got another name, if there was one.
fn renamed_line(rt: &HostRuntime, old: &str, room: &Room<'_>) -> Result<Option<String>, CopyFault> {
    if fs::symlink_metadata(rt, old).is_err() {
        return Ok(None);
    }
    Ok(Some(match renamed_summary(rt, old, room) {
        Ok(summary) => {
            let digest = digest_in(&summary);
            format!(in rt.alloc(); "before {digest} {old}\n")?
        }
        Err(fault) => {
            let code = code_of(fault);
            format!(in rt.alloc(); "before unreadable ({code}) {old}\n")?
        }
    }))
}

// Replaces a database that can't be settled, or that doesn't exist. Returns the line about it.
fn replace_renamed(
    rt: &HostRuntime,
    names: Replacement<'_>,
    room: &Room<'_>,
) -> Result<Option<String>, CopyFault> {
    let locks = lock(rt, names.database)?;
    if names.replace_renamed(rt).is_err() {
        return Err(office_fault(rt.alloc(), ServeFault::Denied, names.database));
    }
    drop(locks);
    renamed_line(rt, names.old, room)
}

// Replaces a settled database. Returns the line about it, and the locked files.
fn replace_settled(
    rt: &HostRuntime,
    names: Replacement<'_>,
    settled: &Settled,
) -> Result<Option<String>, CopyFault> {
    if let Err(error) = names.replace_settled(rt) {
        return Err(room_fault(rt, &error, names.database));
    }
    let (digest, old) = (digest_in(&settled.summary), names.old);
    Ok(Some(format!(in rt.alloc(); "before {digest} {old}\n")?))
}

// Restores a database in the folder of its own, and prints both digests. `name` is the name that
// the user gave. An old server that found the old file before the restore stays locked out of it
// until the end.
fn restore_in<W: Sink>(
    rt: &HostRuntime,
    copy: &str,
    database: &str,
    name: &str,
    room: &Room<'_>,
    writer: &mut W,
) -> Result<(), CopyFault> {
    let locks = lock(rt, database)?;
    let (file, summary) = prepare(rt, copy, database, room)?;
    let (old, scratch) = (old_name(rt, database)?, room.path_of("old.db")?);
    let names = Replacement {
        database,
        new: file.as_str(),
        old: old.as_str(),
        scratch: scratch.as_str(),
    };
    let settled = match locks {
        Some(files) => {
            drop(files);
            settle_old(rt, database)?
        }
        None => None,
    };
    let line = match &settled {
        Some(settled) => replace_settled(rt, names, settled)?,
        None => replace_renamed(rt, names, room)?,
    };
    if let Some(line) = line {
        print(writer, line.as_str())?;
    }
    let digest = digest_in(&summary);
    print(
        writer,
        format!(in rt.alloc(); "restored {digest} {name}\n")?.as_str(),
    )
}

// Returns the path of the file of a database: the file that a link leads to, or the name itself.
fn file_of(rt: &HostRuntime, database: &str) -> Result<String, CopyFault> {
    let alloc = rt.alloc();
    let is_link = fs::symlink_metadata(rt, database).is_ok_and(|found| found.is_symlink());
    match fs::canonicalize(rt, database) {
        Ok(real) if is_link => Ok(real.as_str().to_string(alloc)?),
        _ => Ok(database.to_string(alloc)?),
    }
}

/// Puts a copy of an office in the place of the database of this name, whose server is stopped. It
/// tests the copy first. It copies the log of the old database into it and the old database to
/// another name; if the old one isn't sound, it gets another name with its log. Prints the digests
/// of both. If it fails, the office is what it was.
pub fn restore_on_files<W: Sink>(
    rt: &HostRuntime,
    copy: &str,
    database: &str,
    writer: &mut W,
) -> Result<(), CopyFault> {
    check_names(rt, copy, database)?;
    let file = file_of(rt, database)?;
    let file = file.as_str();
    check_owner(rt, database)?;
    check_owner(rt, file)?;
    let room = Room::make(rt, folder_of(file), ROOM);
    let room = room.map_err(|error| room_fault(rt, &error, database))?;
    let done = restore_in(rt, copy, file, database, &room, writer);
    room.remove();
    done
}
