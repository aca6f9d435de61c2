//! The replacement of a database by a new file. After each step the database is whole: the old one
//! or the new one.

use crate::folders::{folder_of, sync_folder};
use crate::plain::{copy_access, create_plain, open_plain};
use std::fs;
use std::io::{self, ErrorKind};

/// The suffixes of the files of a database.
pub(crate) const SUFFIXES: [&str; 3] = ["", "-wal", "-journal"];

/// The paths of a replacement, all on one disk.
#[derive(Clone, Copy, Drop)]
pub(crate) struct Replacement<'a> {
    /// The database. It isn't a link.
    pub(crate) database: &'a str,
    /// The new file.
    pub(crate) new: &'a str,
    /// The name that the old database gets.
    pub(crate) old: &'a str,
    /// The path at which the old database is copied.
    pub(crate) scratch: &'a str,
}

// Copies a database without its log to a new file with its mode and owner.
fn copy_file(rt: &HostRuntime, database: &str, path: &str) -> io::Result<()> {
    let mut from = open_plain(rt, database)?;
    let mut file = create_plain(rt, path)?;
    io::copy(&mut from, &mut file)?;
    copy_access(&from.metadata()?, &file)?;
    file.sync_all()
}

// Renames a file, if there is one.
fn rename_if_there(rt: &HostRuntime, from: &str, to: &str) -> io::Result<()> {
    match fs::rename(rt, from, to) {
        Err(error) if error.kind() != ErrorKind::NotFound => Err(error),
        _ => Ok(()),
    }
}

// Renames a database, its log and its journal, as far as they exist.
fn rename_all(rt: &HostRuntime, from: &str, to: &str) -> io::Result<()> {
    for suffix in SUFFIXES {
        let old = format!(in rt.alloc(); "{from}{suffix}")?;
        let new = format!(in rt.alloc(); "{to}{suffix}")?;
        rename_if_there(rt, old.as_str(), new.as_str())?;
    }
    Ok(())
}

impl Replacement<'_> {
    // Copies the database to its other name, and writes the copy to the disk.
    fn save(&self, rt: &HostRuntime) -> io::Result<()> {
        copy_file(rt, self.database, self.scratch)?;
        fs::rename(rt, self.scratch, self.old)?;
        sync_folder(rt, folder_of(self.database))
    }

    // Removes the log of the database, which is empty.
    fn remove_log(&self, rt: &HostRuntime) -> io::Result<()> {
        let database = self.database;
        let log = format!(in rt.alloc(); "{database}-wal")?;
        match fs::remove_file(rt, log.as_str()) {
            Err(error) if error.kind() != ErrorKind::NotFound => Err(error),
            _ => sync_folder(rt, folder_of(database)),
        }
    }

    /// Replaces a settled database, whose files are locked. Its copy is on the disk before its log
    /// is removed, and its log is removed before the new file has its name. If this fails, the
    /// copy is removed again.
    pub(crate) fn replace_settled(&self, rt: &HostRuntime) -> io::Result<()> {
        let done = self
            .save(rt)
            .and_then(|()| self.remove_log(rt))
            .and_then(|()| fs::rename(rt, self.new, self.database));
        if let Err(error) = done {
            let _ = fs::remove_file(rt, self.old);
            return Err(error);
        }
        sync_folder(rt, folder_of(self.database))
    }

    /// Replaces a database that can't be settled, whose files get another name. If that fails, they
    /// get their name back.
    pub(crate) fn replace_renamed(&self, rt: &HostRuntime) -> io::Result<()> {
        let done = rename_all(rt, self.database, self.old).and_then(|()| fs::rename(
            rt,
            self.new,
            self.database,
        ));
        if let Err(error) = done {
            let _ = rename_all(rt, self.old, self.database);
            return Err(error);
        }
        sync_folder(rt, folder_of(self.database))
    }
}
