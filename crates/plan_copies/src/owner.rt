//! The owner of a folder in which files are created.

use crate::folders::folder_of;
use crate::lines::{CopyFault, store_fault};
use libc::geteuid;
use std::alloc::AllocError;
use std::fs::{self, Metadata};
use std::os::unix::fs::MetadataExt;

// The number of the user root.
const ROOT: u32 = 0;

// The file with the names of the users.
const USERS: &str = "/etc/passwd";

// Returns the name of a user from a line of the file of users, if it is this user's.
fn name_in(line: &str, uid: u32) -> Option<&str> {
    let mut fields = line.split(':');
    let name = fields.next()?;
    let number = fields.nth(1)?;
    match number.parse::<u32>() {
        Ok(number) if number == uid => Some(name),
        _ => None,
    }
}

// Returns the name of a user, if the file of users has one.
fn name_of(rt: &HostRuntime, uid: u32) -> Option<String> {
    let text = fs::read_to_string(rt, USERS).ok()?;
    for line in text.lines() {
        if let Some(name) = name_in(line, uid) {
            return name.to_string(rt.alloc()).ok();
        }
    }
    None
}

// Returns the command that runs a program as the owner of a folder.
fn runner(rt: &HostRuntime, folder: &Metadata) -> Result<String, AllocError> {
    let (uid, gid) = (folder.uid(), folder.gid());
    match name_of(rt, uid) {
        Some(name) => {
            let name = name.as_str();
            format!(in rt.alloc(); "runuser -u {name} --")
        }
        None => format!(in rt.alloc(); "setpriv --reuid {uid} --regid {gid} --clear-groups"),
    }
}

/// Fails if this is root, and a folder is another user's, who could put a link in the place of a
/// file that root creates or opens there. `front` and `name` name the folder in the error, `command`
/// is the command that its owner may run.
pub(crate) fn check_folder(
    rt: &HostRuntime,
    folder: &str,
    front: &str,
    name: &str,
    command: &str,
) -> Result<(), CopyFault> {
    if geteuid() != ROOT {
        return Ok(());
    }
    let found = match fs::metadata(rt, folder) {
        Ok(found) if found.uid() != ROOT => found,
        _ => return Ok(()),
    };
    let runner = runner(rt, &found)?;
    let runner = runner.as_str();
    let rest = format!(in rt.alloc();
        " isn't root's; run it as the owner: {runner} plan {command} .."
    )?;
    Err(store_fault(rt.alloc(), front, name, rest.as_str()))
}

/// Fails if this is root, and the folder of a database that is restored is another user's.
pub(crate) fn check_owner(rt: &HostRuntime, database: &str) -> Result<(), CopyFault> {
    check_folder(
        rt,
        folder_of(database),
        "the folder of ",
        database,
        "restore",
    )
}
