//! Folders for files that are made before they get their name.

use crate::plain::open_plain;
use jiff::Timestamp;
use std::alloc::AllocError;
use std::fs::{self, DirBuilder, File};
use std::hash::{BuildHasher, RandomState};
use std::io;
use std::os::unix::fs::DirBuilderExt;

/// A new folder that only this user can read.
#[derive(Drop)]
pub(crate) struct Room<'a> {
    rt: &'a HostRuntime,
    path: String,
}

impl<'a> Room<'a> {
    /// Creates a folder in another one. Its name is the prefix and sixteen random digits.
    pub(crate) fn make(rt: &'a HostRuntime, folder: &str, prefix: &str) -> io::Result<Room<'a>> {
        let number = RandomState::new(rt)?.hash_one(&0u8);
        let path = format!(in rt.alloc(); "{folder}/{prefix}{number:016x}")?;
        DirBuilder::new().mode(0o700).create(rt, path.as_str())?;
        Ok(Room { rt, path })
    }

    /// Returns the path of a file in the folder.
    pub(crate) fn path_of(&self, name: &str) -> Result<String, AllocError> {
        let folder = self.path.as_str();
        format!(in self.rt.alloc(); "{folder}/{name}")
    }

    /// Removes the folder and its files. A file that can't be removed stays.
    pub(crate) fn remove(self) {
        let _ = fs::remove_dir_all(self.rt, self.path.as_str());
    }
}

/// Returns the path of the folder of a file.
pub(crate) fn folder_of(path: &str) -> &str {
    match path.rsplit_once('/') {
        Some(("", _)) => "/",
        Some((folder, _)) => folder,
        None => ".",
    }
}

/// Returns the name of a file in its folder.
pub(crate) fn name_of(path: &str) -> &str {
    match path.rsplit_once('/') {
        Some((_, name)) => name,
        None => path,
    }
}

/// Returns a path or a name without its ending `.db`, if it has one.
pub(crate) fn stem_of(path: &str) -> &str {
    path.strip_suffix(".db").unwrap_or(path)
}

/// Writes the names of a folder to the disk.
pub(crate) fn sync_folder(rt: &HostRuntime, folder: &str) -> io::Result<()> {
    File::open(rt, folder)?.sync_all()
}

/// Writes a file to the disk.
pub(crate) fn sync_file(rt: &HostRuntime, path: &str) -> io::Result<()> {
    open_plain(rt, path)?.sync_all()
}

/// Returns the time in UTC, such as `20260301T030512Z`. If the clock can't be read, it is the
/// beginning of 1970.
pub(crate) fn stamp(rt: &HostRuntime) -> Result<String, AllocError> {
    let now = Timestamp::now(rt).map_or(0, |time| time.as_second());
    let time = Timestamp::from_second(now).unwrap_or(Timestamp::UNIX_EPOCH);
    let text = format!(in rt.alloc(); "{time}")?;
    let mut plain = String::new(rt.alloc());
    for c in text.chars() {
        if c != '-' && c != ':' {
            plain.push(c)?;
        }
    }
    Ok(plain)
}
