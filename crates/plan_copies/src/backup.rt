//! `plan backup`: a copy of an office, also while a server runs.

use crate::check::{CheckFault, check_copy, copy_checked};
use crate::expiry::remove_old;
use crate::fault::PairFault;
use crate::folders::{Room, folder_of, name_of, stamp, stem_of, sync_file, sync_folder};
use crate::lines::{CopyFault, copy_fault, store_fault};
use crate::named::{NamedCopy, NamedPair, target_fault};
use crate::owner::check_folder;
use plan_io::{MemSink, Sink, write_whole};
use plan_serve::ServeFault;
use sha2::{Digest, Sha256};
use std::fs;

/// The start of the name of the folder in which a backup is made.
pub(crate) const ROOM: &str = ".plan-backup-";

// The place of a new backup. In a folder of copies, `prefix` is the start of the names of the copies
// of this database.
#[derive(Drop)]
struct Place {
    folder: String,
    path: String,
    prefix: String,
}

// Returns whether there is a folder of this name.
pub(crate) fn is_folder(rt: &HostRuntime, path: &str) -> bool {
    fs::metadata(rt, path).is_ok_and(|found| found.is_dir())
}

/// Fails if there is something of this name, or a log of a database of this name.
pub(crate) fn check_new(rt: &HostRuntime, path: &str) -> Result<(), CopyFault> {
    let alloc = rt.alloc();
    if fs::symlink_metadata(rt, path).is_ok() {
        return Err(store_fault(alloc, "", path, " exists; choose another name"));
    }
    let log = format!(in alloc; "{path}-wal")?;
    if fs::symlink_metadata(rt, log.as_str()).is_ok() {
        return Err(store_fault(
            alloc,
            "",
            log.as_str(),
            " exists; remove it or choose another name",
        ));
    }
    Ok(())
}

// Returns the start of the names of the copies of a database: its stem, and the first 8 digits of
// the SHA-256 of its path without links, such as `office-1f0c2b9d-`.
fn prefix_of(rt: &HostRuntime, database: &str, folder: &str) -> Result<String, CopyFault> {
    let alloc = rt.alloc();
    let fault = match NamedPair::find(rt, database) {
        Ok(_) => PairFault::Unread,
        Err(fault) => fault,
    };
    let Ok(path) = fs::canonicalize(rt, database) else {
        return Err(copy_fault(alloc, CheckFault::Copy(fault), database, folder));
    };
    let digest = Sha256::digest(path.as_str().as_bytes());
    let tag = hex::encode(alloc, &digest.as_slice()[..4])?;
    let (stem, tag) = (stem_of(name_of(database)), tag.as_str());
    Ok(format!(in alloc; "{stem}-{tag}-")?)
}

// Returns the place of a backup: the given name, or a name with the time in the given folder.
fn place_of(rt: &HostRuntime, database: &str, copy: &str) -> Result<Place, CopyFault> {
    let alloc = rt.alloc();
    if !is_folder(rt, copy) {
        return Ok(Place {
            folder: folder_of(copy).to_string(alloc)?,
            path: copy.to_string(alloc)?,
            prefix: String::new(alloc),
        });
    }
    let folder = copy.strip_suffix('/').unwrap_or(copy);
    let prefix = prefix_of(rt, database, copy)?;
    let time = stamp(rt)?;
    let (front, time) = (prefix.as_str(), time.as_str());
    let path = format!(in alloc; "{folder}/{front}{time}.db")?;
    Ok(Place {
        folder: copy.to_string(alloc)?,
        path,
        prefix,
    })
}

// Copies a database into a folder of its own, tests the copy, and moves it to its place. Returns
// the line with its name and digest.
fn copy_to(
    rt: &HostRuntime,
    database: &str,
    place: &Place,
    room: &Room<'_>,
) -> Result<String, CopyFault> {
    let (alloc, folder) = (rt.alloc(), place.folder.as_str());
    let file = room.path_of("office.db")?;
    let mut pair = NamedPair::find(rt, database).map_err(|fault| copy_fault(
        alloc,
        CheckFault::Copy(fault),
        database,
        folder,
    ))?;
    let mut copy = NamedCopy::at(rt, file.as_str())?;
    let text = copy_checked(alloc, &mut pair, &mut copy).map_err(|fault| copy_fault(
        alloc, fault, database, folder,
    ))?;
    let (path, digest) = (place.path.as_str(), digest_in(&text));
    let line = format!(in alloc; "{path} {digest}\n")?;
    let moved = sync_file(rt, file.as_str())
        .and_then(|()| fs::rename(rt, file.as_str(), path))
        .and_then(|()| sync_folder(rt, folder));
    if moved.is_err() {
        let fault = CheckFault::Copy(PairFault::Unwritten);
        return Err(copy_fault(alloc, fault, database, folder));
    }
    Ok(line)
}

/// Returns the digest at the end of a summary.
pub(crate) fn digest_in(summary: &[u8]) -> &str {
    let text = std::str::from_utf8(summary).unwrap_or("");
    match text.trim_end().rsplit_once(' ') {
        Some((_, digest)) => digest,
        None => "",
    }
}

/// Writes a line to the output.
pub(crate) fn print<W: Sink>(writer: &mut W, line: &str) -> Result<(), CopyFault> {
    write_whole(writer, line.as_bytes()).map_err(|_| CopyFault::Office(ServeFault::Output))
}

// Copies the file of a copy, and returns the summary of its rows.
fn read_again(rt: &HostRuntime, path: &str, scratch: &str) -> Result<Vec<u8>, CheckFault> {
    let mut pair = NamedPair::find(rt, path).map_err(CheckFault::Copy)?;
    let Ok(copy) = NamedCopy::at(rt, scratch) else {
        return Err(CheckFault::Copy(PairFault::Memory));
    };
    let mut copy = copy;
    let mut writer = MemSink::new(Vec::new(rt.alloc()));
    check_copy(rt.alloc(), &mut pair, &mut copy, &mut writer)?;
    Ok(writer.into_bytes())
}

// Reads the file of a copy at its place. Fails if it isn't there, or its rows have another digest.
fn check_made(
    rt: &HostRuntime,
    place: &Place,
    room: &Room<'_>,
    digest: &str,
) -> Result<(), CopyFault> {
    let (alloc, path) = (rt.alloc(), place.path.as_str());
    let scratch = room.path_of("again.db")?;
    match read_again(rt, path, scratch.as_str()) {
        Ok(summary) if digest_in(&summary) == digest => Ok(()),
        // The summary is in memory.
        Err(CheckFault::Office(ServeFault::Memory | ServeFault::Output)) => {
            Err(CopyFault::Office(ServeFault::Memory))
        }
        Err(CheckFault::Copy(fault)) if fault != PairFault::Missing => {
            Err(copy_fault(alloc, CheckFault::Copy(fault), path, place.folder.as_str()))
        }
        _ => {
            let rest = " isn't the copy that was made; run the backup again";
            Err(store_fault(alloc, "", path, rest))
        }
    }
}

// Makes a backup in a folder of its own, and removes the copies that are too old. At the end it
// reads the file of the backup again.
fn backup_in<W: Sink>(
    rt: &HostRuntime,
    database: &str,
    place: &Place,
    room: &Room<'_>,
    keep: Option<u32>,
    writer: &mut W,
) -> Result<(), CopyFault> {
    let line = copy_to(rt, database, place, room)?;
    let digest = digest_in(line.as_bytes());
    // No copy is removed for a file that can't be read.
    check_made(rt, place, room, digest)?;
    print(writer, line.as_str())?;
    let Some(count) = keep else {
        return Ok(());
    };
    let (folder, new) = (place.folder.as_str(), name_of(place.path.as_str()));
    remove_old(rt, folder, place.prefix.as_str(), new, count)?;
    check_made(rt, place, room, digest)
}

/// Copies the office in the file of this name, also while a server runs, to a new file `copy` or
/// into a folder `copy`. It tests the copy before it has its name, and prints its name and digest.
/// If `keep` is given, all copies of this database in the folder but the newest are removed. The new
/// one stays: if another copy is later, nothing is removed, and that is an error.
pub fn backup_on_files<W: Sink>(
    rt: &HostRuntime,
    database: &str,
    copy: &str,
    keep: Option<u32>,
    writer: &mut W,
) -> Result<(), CopyFault> {
    let alloc = rt.alloc();
    if keep.is_some() && !is_folder(rt, copy) {
        return Err(store_fault(alloc, "there is no folder ", copy, " for --keep; make it"));
    }
    let place = place_of(rt, database, copy)?;
    check_new(rt, place.path.as_str())?;
    let folder = place.folder.as_str();
    check_folder(rt, folder, "the folder ", folder, "backup")?;
    let room = Room::make(rt, folder, ROOM).map_err(|error| {
        copy_fault(
            alloc,
            CheckFault::Copy(target_fault(&error)),
            database,
            folder,
        )
    })?;
    let made = backup_in(rt, database, &place, &room, keep, writer);
    room.remove();
    made
}
