//! Files of office programs that contain no text.

ghost use Rattle.std.specs.Prelude.{◌≡◌};
ghost use Rattle.plan_encoding.specs.Workbooks.{archive, workbook};

use crate::marks::{contains, rest};

/// The forms of a file that isn't a text.
#[derive(Clone, Copy, Debug, PartialEq, Eq, Drop)]
pub enum Workbook {
    /// A workbook of Excel 2007 and later (`.xlsx`), or another package of Office Open XML.
    Excel,
    /// A workbook of Excel 97 to 2003 (`.xls`), or another compound file.
    OldExcel,
    /// A document of LibreOffice or another program (`.ods`).
    OpenDocument,
    /// A project of Microsoft Project (`.mpp`).
    Project,
}

// The length of the header of an entry of a ZIP file, in bytes.
const ENTRY: usize = 30;

// Returns the form of a ZIP file, if it is one of a workbook.
#[tactic(auto, unfolding(crate::specs::Workbooks::archive))]
fn archive_of(bytes: &[u8]) -> Option<Workbook>
    ensures { result ≡ archive bytes.now }
{
    let entry = rest(bytes, ENTRY);
    if entry.starts_with(b"mimetypeapplication/vnd.oasis.opendocument") {
        Some(Workbook::OpenDocument)
    } else if entry.starts_with(b"xl/") || contains(bytes, b"[Content_Types].xml") {
        Some(Workbook::Excel)
    } else {
        None
    }
}

/// Returns the form of the file, if it is a workbook in place of a text. A text is none.
#[tactic(auto, unfolding(crate::specs::Workbooks::workbook))]
pub fn workbook_of(bytes: &[u8]) -> Option<Workbook>
    ensures { result ≡ workbook bytes.now }
{
    if bytes.starts_with(b"PK\x03\x04") {
        archive_of(bytes)
    } else if !bytes.starts_with(b"\xD0\xCF\x11\xE0\xA1\xB1\x1A\xE1") {
        None
    } else if contains(bytes, b"MSProject.") {
        Some(Workbook::Project)
    } else {
        Some(Workbook::OldExcel)
    }
}
