//! The errors of files that can't become a plain list.

ghost use Rattle.std.specs.Prelude.{◌≡◌};
ghost use Rattle.plan_spreadsheet.specs.declared.fault.SpreadsheetFault.TheVariants as fault;

use std::alloc::AllocError;
use thiserror::Error;

/// Why there is no plain list.
#[derive(Clone, Copy, Debug, PartialEq, Eq, Error)]
pub enum SpreadsheetFault {
    /// Memory ran out.
    #[error("E90 memory")]
    Memory,
    /// The plain list has more bytes than plan_table reads.
    #[error("T1 too long")]
    TooLong,
    /// A workbook of Excel 2007 and later.
    #[error("T18 an Excel workbook: save it as CSV UTF-8")]
    Excel,
    /// A workbook of Excel 97 to 2003.
    #[error("T18 an Excel 97-2003 workbook: save it as CSV UTF-8")]
    OldExcel,
    /// A document of LibreOffice or another program.
    #[error("T18 an OpenDocument spreadsheet: save it as CSV UTF-8")]
    OpenDocument,
    /// A project of Microsoft Project.
    #[error("T18 a Microsoft Project file: save it as CSV")]
    Project,
}

impl From<AllocError> for SpreadsheetFault {
    ghost from_gives = { λ _ first. first ≡ fault.Memory };

    fn from(_error: AllocError) -> Self {
        SpreadsheetFault::Memory
    }
}
