//! The inputs of a task: files by their names, and standard input.

ghost use Rattle.std.specs.Prelude.{◌≡◌, ◌⊎◌, ◌↔◌, ℕ, List, Option, Some, IfOk, IfErr, IfSome};
ghost use Rattle.std.specs.IoError.{error_kind};

use plan_errors::{About, CliFault};
use plan_io::{Source, StdSource};
use std::fs;
use std::io::{self, ErrorKind};
use std::rt::Files;

/// Files by their names, and standard input.
pub trait Inputs {
    type File: Source + Drop;

    type Standard: Source + Drop;

    /// The bytes of the file with a name, if they are known.
    ghost file_bytes: { Self → List ℕ → Option (List ℕ) };

    /// The bytes of standard input, if they are known.
    ghost standard_bytes: { Self → Option (List ℕ) };

    /// Opens the file with this name, at its first byte. It is this argument.
    fn open(&self, path: &str, about: About) -> Result<Self::File, CliFault>
        ensures opened { IfOk result (λ file. IfSome (file_bytes self.now path.now) (λ bytes.
            Self.File.remaining file ≡ Some bytes)) }
        ensures refused { IfErr result (λ e.
            (e ≡ CliFault.Memory) ⊎ (e ≡ CliFault.Input about)) };

    /// Returns standard input.
    fn standard(&self) -> Self::Standard
        ensures { IfSome (standard_bytes self.now) (λ bytes.
            Self.Standard.remaining result ≡ Some bytes) };
}

/// The files and the standard input of the system. Their bytes are unknown to contracts.
#[derive(Drop)]
pub struct SystemInputs<'a, R> {
    rt: &'a R,
}

// Returns the error of a file that can't be opened. It is this argument.
fn open_fault(error: &io::Error, about: About) -> CliFault
    ensures memory { (result ≡ CliFault.Memory)
        ↔ (error_kind error.now ≡ ErrorKind.OutOfMemory) }
    ensures input { (result ≡ CliFault.Memory) ⊎ (result ≡ CliFault.Input about) }
{
    if error.kind() == ErrorKind::OutOfMemory {
        return CliFault::Memory;
    }
    CliFault::Input(about)
}

impl<'a, R> SystemInputs<'a, R> {
    /// Returns the inputs of this runtime.
    pub fn new(rt: &'a R) -> SystemInputs<'a, R> {
        SystemInputs { rt }
    }
}

impl<'a, R: Files + Input> Inputs for SystemInputs<'a, R> {
    type File = StdSource<R::File>;

    type Standard = StdSource<R::Reader>;

    ghost use Rattle.std.specs.Prelude.{None};

    ghost file_bytes = { λ _ _. None };

    ghost standard_bytes = { λ _. None };

    fn open(&self, path: &str, about: About) -> Result<StdSource<R::File>, CliFault> {
        let file = fs::open(self.rt, path).map_err(|error| open_fault(&error, about))?;
        Ok(StdSource::new(file))
    }

    fn standard(&self) -> StdSource<R::Reader> {
        StdSource::new(self.rt.reader())
    }
}
