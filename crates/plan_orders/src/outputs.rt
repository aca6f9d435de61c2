//! The way to write a file that the command line names.

ghost use Rattle.std.specs.Prelude.{◌↔◌, IsTrue, Contains};
ghost use Rattle.plan_orders.specs.Outputs.{IsFileAmong, IsWayFor};

/// The identity of a file. All names of one file have the same.
#[derive(Clone, Copy, Debug, PartialEq, Eq)]
pub struct FileId {
    pub device: u64,
    pub inode: u64,
}

/// The target of an output's name, behind all symbolic links.
#[derive(Clone, Copy, Debug, PartialEq, Eq)]
pub enum Found {
    Nothing,
    Regular(FileId),
    Folder,
    /// A device, a pipe or a socket.
    Device,
    /// A symbolic link to a file that doesn't exist.
    BrokenLink,
}

/// The way to write an output, or the reason to refuse its name.
#[derive(Clone, Copy, Debug, PartialEq, Eq)]
pub enum Way {
    /// The name is `-`.
    RefuseDash,
    /// The file is also an input.
    RefuseInput,
    /// Standard output or standard error writes to the file.
    RefuseStream,
    RefuseFolder,
    RefuseLink,
    /// Write to it as it is: a device can't be replaced.
    Straight,
    /// Write a new file beside it, and rename that when it is complete.
    Beside,
}

// Whether a file is one of these.
fn is_among(files: &[FileId], file: FileId) -> bool
    ensures { IsTrue result ↔ Contains files.now file }
{
    for other in files {
        if other.device == file.device && other.inode == file.inode {
            return true;
        }
    }
    false
}

// Whether an output is a regular file, one of these.
fn is_file_among(files: &[FileId], found: Found) -> bool
    ensures { IsTrue result ↔ IsFileAmong files.now found }
{
    match found {
        Found::Regular(file) => is_among(files, file),
        _ => false,
    }
}

/// Returns the way to write the output with this name: `inputs` are the files that the command
/// reads, `streams` those behind standard output and standard error.
pub fn way_to_write(name: &str, found: Found, inputs: &[FileId], streams: &[FileId]) -> Way
    ensures way { IsWayFor name.now found inputs.now streams.now result }
{
    if name == "-" {
        return Way::RefuseDash;
    }
    if is_file_among(inputs, found) {
        return Way::RefuseInput;
    }
    if is_file_among(streams, found) {
        return Way::RefuseStream;
    }
    match found {
        Found::Folder => Way::RefuseFolder,
        Found::BrokenLink => Way::RefuseLink,
        Found::Device => Way::Straight,
        Found::Nothing | Found::Regular(_) => Way::Beside,
    }
}
