//! The encoding of a list that another program has saved, its text in UTF-8, and the files that are
//! workbooks in place of text.
#![tactic(auto)]

mod encoding;
mod marks;
mod text;
mod utf16;
mod windows_1252;
mod workbook;

pub use encoding::{Encoding, encoding_of};
pub use text::{Decoded, utf8_text};
pub use workbook::{Workbook, workbook_of};
