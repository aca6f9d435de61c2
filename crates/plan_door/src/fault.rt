//! The faults of the commands on an office.

use thiserror::Error;

/// The fault of a command on an office. Faults that differ only in their cause have the same line,
/// and a hint of their own.
#[derive(Clone, Copy, Debug, Drop, PartialEq, Eq, Error)]
pub enum ServeFault {
    /// Memory ran out.
    #[error("E90 memory")]
    Memory,
    /// The store refused.
    #[error("E91 store")]
    Store,
    /// The database has other tables than those of an office.
    #[error("K1 not ours")]
    NotOurs,
    /// The tables have an unknown version.
    #[error("K2 version")]
    Version,
    /// The text isn't a key.
    #[error("K3 key")]
    Key,
    /// A file or standard input can't be read.
    #[error("I1 file")]
    Input,
    /// The port can't be bound, or too many consecutive accepts failed.
    #[error("I2 socket")]
    Socket,
    /// The output can't be written completely.
    #[error("I3 output")]
    Output,
    /// Another process has the file of the office open.
    #[error("E91 store")]
    Locked,
    /// There is no file of this name.
    #[error("E91 store")]
    Missing,
    /// The file, its log or their folder isn't writable.
    #[error("E91 store")]
    Denied,
    /// The database has the tables of an office already.
    #[error("K1 not ours")]
    Taken,
    /// Another program listens on the port.
    #[error("I2 socket")]
    PortTaken,
    /// The port may not be bound.
    #[error("I2 socket")]
    PortDenied,
}

impl ServeFault {
    ghost use Rattle.std.specs.Prelude.{◌≡◌};
    ghost use Rattle.plan_door.specs.Faults.{line_of};

    /// Returns the line, without its line feed. Scripts rely on these lines.
    pub fn line(self) -> &'static str
        ensures { result.now ≡ line_of self }
    {
        match self {
            ServeFault::Memory => "E90 memory",
            ServeFault::Store | ServeFault::Locked | ServeFault::Missing | ServeFault::Denied => {
                "E91 store"
            }
            ServeFault::NotOurs | ServeFault::Taken => "K1 not ours",
            ServeFault::Version => "K2 version",
            ServeFault::Key => "K3 key",
            ServeFault::Input => "I1 file",
            ServeFault::Socket | ServeFault::PortTaken | ServeFault::PortDenied => "I2 socket",
            ServeFault::Output => "I3 output",
        }
    }
}
