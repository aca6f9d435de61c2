//! The error of a command.

ghost use Rattle.std.specs.Prelude.{◌≡◌, IfOk, string_bytes};
ghost use Rattle.plan_errors.specs.Faults as spec;
ghost use Rattle.plan_errors.specs.declared.fault.CliFault.TheVariants.{Memory};

use crate::codes::Code;
use crate::context::{About, Contents};
use crate::refusal::Refusal;
use std::alloc::{AllocError, Global};

/// The error of a command.
#[derive(Debug, Drop)]
pub enum CliFault {
    /// The file or an argument is invalid.
    Refused(Refusal),
    /// Memory ran out.
    Memory,
    /// A file or standard input can't be read: the one that is this argument.
    Input(About),
    /// The output can't be written whole.
    Output,
}

impl CliFault {
    /// Returns its line without the end, such as `F9 line 31` or `S3 unknown rule`.
    pub fn line(&self, alloc: Global) -> Result<String, AllocError>
        ensures { IfOk result (λ text. string_bytes text ≡ spec.line_of self.now) }
    {
        match self {
            CliFault::Refused(refusal) => refusal.line(alloc),
            CliFault::Memory => "E90 memory".to_string(alloc),
            CliFault::Input(_) => "I1 file".to_string(alloc),
            CliFault::Output => "I3 output".to_string(alloc),
        }
    }

    /// Returns its code.
    pub fn code(&self) -> Code
        ensures { result ≡ spec.code_of self.now }
    {
        match self {
            CliFault::Refused(refusal) => refusal.code,
            CliFault::Memory => Code::NoMemory,
            CliFault::Input(_) => Code::Input,
            CliFault::Output => Code::Output,
        }
    }

    /// Returns what it is about.
    pub fn subject(&self) -> About
        ensures { result ≡ spec.subject_of self.now }
    {
        match self {
            CliFault::Refused(refusal) => refusal.about,
            CliFault::Memory | CliFault::Output => About::Other,
            CliFault::Input(unread) => *unread,
        }
    }

    /// Returns the same error with these contents of its file.
    pub fn with_contents(self, contents: Contents) -> CliFault
        ensures { result ≡ spec.with_contents contents self }
    {
        match self {
            CliFault::Refused(mut refusal) => {
                refusal.contents = contents;
                CliFault::Refused(refusal)
            }
            CliFault::Memory => CliFault::Memory,
            CliFault::Input(unread) => CliFault::Input(unread),
            CliFault::Output => CliFault::Output,
        }
    }

    /// Returns the same error with this detail.
    pub fn with_detail(self, detail: Option<String>) -> CliFault
        ensures { result ≡ spec.with_detail detail self }
    {
        match self {
            CliFault::Refused(mut refusal) => {
                refusal.detail = detail;
                CliFault::Refused(refusal)
            }
            CliFault::Memory => CliFault::Memory,
            CliFault::Input(unread) => CliFault::Input(unread),
            CliFault::Output => CliFault::Output,
        }
    }
}

impl From<AllocError> for CliFault {
    ghost from_gives = { λ _ e. e ≡ Memory };

    fn from(_e: AllocError) -> CliFault {
        CliFault::Memory
    }
}
