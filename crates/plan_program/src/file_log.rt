//! The log of a search in a file.

use plan_cli::Log;
use plan_errors::{About, CliFault, Code, Part, refuse};
use plan_orders::{FileId, Found, Way, way_to_write};
use std::alloc::AllocError;
use std::fs::{self, File, Metadata, OpenOptions};
use std::hash::{BuildHasher, RandomState};
use std::io::{self, ErrorKind, Write};
use std::os::unix::fs::{MetadataExt, fchown};

// The start of the name of a log that isn't complete.
const DRAFT: &str = ".plan-log-";

/// The reason why a log can't be written.
#[derive(Drop)]
pub(crate) enum LogFault {
    NoMemory,
    /// The lines can't be written whole.
    Output,
    /// The name can't be that of a log.
    Usage(String),
    /// The error of the output with its cause.
    Named(CliFault),
}

impl From<AllocError> for LogFault {
    fn from(_: AllocError) -> LogFault {
        LogFault::NoMemory
    }
}

// A new file beside the log, which replaces the log when it is complete.
#[derive(Drop)]
struct Draft {
    file: File,
    path: String,
    /// The path of the log, behind all symbolic links.
    log: String,
}

// The place of the lines of a log.
#[derive(Drop)]
enum Target {
    Nowhere,
    Device(File),
    Draft(Draft),
}

/// A log in a file, or nowhere. After a write that fails it takes no more lines.
#[derive(Drop)]
pub(crate) struct FileLog {
    target: Target,
    has_failed: bool,
}

// Returns a name without control characters: each is replaced by `?`.
fn shown(rt: &HostRuntime, name: &str) -> Result<String, AllocError> {
    let mut text = String::new(rt.alloc());
    for c in name.chars() {
        text.push(if c.is_control() { '?' } else { c })?;
    }
    Ok(text)
}

// Returns the error of a name that can't be that of a log.
fn usage_fault(rt: &HostRuntime, name: &str, rest: &str) -> LogFault {
    let what = shown(rt, name).and_then(|name| {
        let name = name.as_str();
        format!(in rt.alloc(); "--log can't write to '{name}': {rest}")
    });
    what.map_or(LogFault::NoMemory, LogFault::Usage)
}

// Returns the error of the output with this cause, which is also its detail.
fn named_fault(rt: &HostRuntime, cause: &str) -> Result<CliFault, AllocError> {
    let detail = cause.to_string(rt.alloc())?;
    let cause = Part::Text(cause.to_string(rt.alloc())?);
    let parts = Vec::from_array(rt.alloc(), [Part::Words("output:"), cause])?;
    Ok(refuse(Code::Output, About::Other, Ok(parts)).with_detail(Some(detail)))
}

// Returns the error of a log that can't be written, with the name of a file.
fn line_fault(rt: &HostRuntime, front: &str, name: &str, rest: &str) -> LogFault {
    let cause = shown(rt, name).and_then(|name| {
        let name = name.as_str();
        format!(in rt.alloc(); "{front}{name}{rest}")
    });
    let fault = cause.and_then(|cause| named_fault(rt, cause.as_str()));
    fault.map_or(LogFault::NoMemory, LogFault::Named)
}

// Returns the error of a file that can't be opened.
fn open_fault(rt: &HostRuntime, error: &io::Error, name: &str) -> LogFault {
    match error.kind() {
        ErrorKind::OutOfMemory => LogFault::NoMemory,
        ErrorKind::PermissionDenied | ErrorKind::ReadOnlyFilesystem => {
            line_fault(rt, "this user can't write ", name, "; choose another file")
        }
        _ => line_fault(rt, "", name, " can't be written; choose another file"),
    }
}

// Returns the error of a folder in which no file can be made.
fn folder_fault(rt: &HostRuntime, error: &io::Error, folder: &str) -> LogFault {
    match error.kind() {
        ErrorKind::OutOfMemory => LogFault::NoMemory,
        ErrorKind::NotFound => line_fault(rt, "there is no folder ", folder, "; make it"),
        _ => line_fault(
            rt,
            "no file can be made in ",
            folder,
            "; choose another folder",
        ),
    }
}

// Returns the identity of a file.
fn id_of(found: &Metadata) -> FileId {
    FileId {
        device: found.dev(),
        inode: found.ino(),
    }
}

// Returns the identities of the regular files among these names.
fn regular_files(rt: &HostRuntime, names: &[&str]) -> Result<Vec<FileId>, AllocError> {
    let mut files = Vec::new(rt.alloc());
    for name in names {
        match fs::metadata(rt, *name) {
            Ok(found) if found.is_file() => files.push(id_of(&found))?,
            _ => {}
        }
    }
    Ok(files)
}

// Returns the target of a name.
fn find(rt: &HostRuntime, name: &str) -> io::Result<Found> {
    match fs::metadata(rt, name) {
        Ok(found) if found.is_dir() => Ok(Found::Folder),
        Ok(found) if found.is_file() => Ok(Found::Regular(id_of(&found))),
        Ok(_) => Ok(Found::Device),
        Err(error) if error.kind() != ErrorKind::NotFound || name.is_empty() => Err(error),
        Err(_) if fs::symlink_metadata(rt, name).is_ok() => Ok(Found::BrokenLink),
        Err(_) => Ok(Found::Nothing),
    }
}

// Opens a file that exists for writing, and leaves its bytes as they are.
fn open(rt: &HostRuntime, name: &str) -> Result<File, LogFault> {
    OpenOptions::new()
        .write(true)
        .open(rt, name)
        .map_err(|error| open_fault(rt, &error, name))
}

// Returns the path of the folder of a file.
fn folder_of(path: &str) -> &str {
    match path.rsplit_once('/') {
        Some(("", _)) => "/",
        Some((folder, _)) => folder,
        None => ".",
    }
}

// Creates a file in a folder. Its name has sixteen random digits.
fn create_in(rt: &HostRuntime, folder: &str) -> io::Result<(File, String)> {
    let number = RandomState::new(rt)?.hash_one(&0u8);
    let path = format!(in rt.alloc(); "{folder}/{DRAFT}{number:016x}")?;
    let file = File::create_new(rt, path.as_str())?;
    Ok((file, path))
}

// Gives a new file the mode of an old one, and its owner and group as far as this user may.
fn give(file: &File, old: &Metadata) -> io::Result<()> {
    let _ = fchown(file, Some(old.uid()), Some(old.gid()));
    file.set_permissions(old.permissions())
}

// Returns the path of a log behind all symbolic links. A log that exists must be writable.
fn real_path(rt: &HostRuntime, name: &str, is_new: bool) -> Result<String, LogFault> {
    if is_new {
        return Ok(name.to_string(rt.alloc())?);
    }
    drop(open(rt, name)?);
    match fs::canonicalize(rt, name) {
        Ok(path) => Ok(path.as_str().to_string(rt.alloc())?),
        Err(error) => Err(open_fault(rt, &error, name)),
    }
}

// Creates a file beside the log with this name.
fn draft_of(rt: &HostRuntime, name: &str, is_new: bool) -> Result<Draft, LogFault> {
    let log = real_path(rt, name, is_new)?;
    let folder = folder_of(log.as_str());
    let (file, path) = create_in(rt, folder).map_err(|error| folder_fault(rt, &error, folder))?;
    if let Ok(old) = fs::metadata(rt, log.as_str()) {
        let _ = give(&file, &old);
    }
    Ok(Draft { file, path, log })
}

// Returns the way to write the log with this name. `input` is the file that the command reads.
fn way_of(rt: &HostRuntime, name: &str, input: &str) -> Result<(Way, Found), LogFault> {
    let found = find(rt, name).map_err(|error| open_fault(rt, &error, name))?;
    let input = if input == "-" { "/dev/stdin" } else { input };
    let inputs = regular_files(rt, &[input])?;
    let streams = regular_files(rt, &["/dev/stdout", "/dev/stderr"])?;
    Ok((way_to_write(name, found, &inputs, &streams), found))
}

// Opens the target of the log with this name. `input` is the file that the command reads.
fn target_of(rt: &HostRuntime, name: &str, input: &str) -> Result<Target, LogFault> {
    let (way, found) = way_of(rt, name, input)?;
    match way {
        Way::RefuseDash => Err(usage_fault(rt, name, "name a file")),
        Way::RefuseInput => Err(usage_fault(rt, name, "it is the input; name another file")),
        Way::RefuseStream => {
            Err(usage_fault(rt, name, "it gets another output; name another file"))
        }
        Way::RefuseFolder => Err(line_fault(rt, "", name, " is a folder; name a file")),
        Way::RefuseLink => {
            Err(line_fault(rt, "", name, " is a link to no file; name another file"))
        }
        Way::Straight => Ok(Target::Device(open(rt, name)?)),
        Way::Beside => Ok(Target::Draft(draft_of(rt, name, found == Found::Nothing)?)),
    }
}

impl Draft {
    // Removes the new file.
    fn remove(&self, rt: &HostRuntime) {
        let _ = fs::remove_file(rt, self.path.as_str());
    }

    // Replaces the log by the new file.
    fn publish(&self, rt: &HostRuntime) -> Result<(), LogFault> {
        if self.file.sync_all().is_err() {
            self.remove(rt);
            return Err(LogFault::Output);
        }
        let (path, log) = (self.path.as_str(), self.log.as_str());
        fs::rename(rt, path, log).map_err(|_| line_fault(rt, "the log is in ", path, "; rename it"))
    }
}

impl FileLog {
    /// Returns a log for the file with this name, if there is one. `input` is the file that the
    /// command reads. A file that exists stays as it is until [`FileLog::end`].
    pub fn create(rt: &HostRuntime, name: Option<&str>, input: &str) -> Result<FileLog, LogFault> {
        let target = match name {
            Some(name) => target_of(rt, name, input)?,
            None => Target::Nowhere,
        };
        Ok(FileLog {
            target,
            has_failed: false,
        })
    }

    /// Ends a log. If it is complete, the file gets its name; else what was written is removed.
    pub fn end(self, rt: &HostRuntime, is_complete: bool) -> Result<(), LogFault> {
        match &self.target {
            Target::Draft(draft) if is_complete && !self.has_failed => draft.publish(rt)?,
            Target::Draft(draft) => draft.remove(rt),
            Target::Device(_) | Target::Nowhere => {}
        }
        if self.has_failed {
            return Err(LogFault::Output);
        }
        Ok(())
    }
}

impl Log for FileLog {
    fn is_wanted(&self) -> bool {
        !matches!(self.target, Target::Nowhere)
    }

    fn write(&mut self, lines: &str) -> bool {
        let file = match &mut self.target {
            Target::Device(file) => file,
            Target::Draft(draft) => &mut draft.file,
            Target::Nowhere => return false,
        };
        self.has_failed = file.write_all(lines.as_bytes()).is_err();
        !self.has_failed
    }
}
