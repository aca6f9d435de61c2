//! A file that was read, as the inputs of a task.

ghost use Rattle.std.specs.Prelude.{◌≡◌, Some};

use plan_cli::Inputs;
use plan_errors::{About, CliFault};
use plan_io::MemSource;

/// The bytes of a file, which are read in place of every file and of standard input.
#[derive(Drop)]
pub(crate) struct ReadInput<'a> {
    bytes: &'a [u8],
}

impl<'a> ReadInput<'a> {
    /// Returns the inputs with these bytes.
    pub fn new(bytes: &'a [u8]) -> ReadInput<'a> {
        ReadInput { bytes }
    }
}

impl<'a> Inputs for ReadInput<'a> {
    type File = MemSource<'a>;

    type Standard = MemSource<'a>;

    ghost use Rattle.std.specs.Prelude.{Some};

    ghost file_bytes = { λ input _. Some input.bytes.now };

    ghost standard_bytes = { λ input. Some input.bytes.now };

    fn open(&self, _path: &str, _about: About) -> Result<MemSource<'a>, CliFault> {
        Ok(MemSource::new(self.bytes))
    }

    fn standard(&self) -> MemSource<'a> {
        MemSource::new(self.bytes)
    }
}
