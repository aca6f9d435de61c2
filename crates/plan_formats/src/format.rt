//! The formats of tables.

ghost use Rattle.std.specs.Prelude.{◌≡◌, IfOk};
ghost use Rattle.plan_formats.specs.Tables.{table_of};
ghost use Rattle.plan_formats.specs.TableFormats.{format_text, ReadsBack};

use crate::csv_records::csv_text;
use crate::json_lines::json_text;
use crate::table::Table;
use std::alloc::{AllocError, Global};

/// A format of tables.
#[derive(Clone, Copy, Debug, PartialEq, Eq)]
pub enum Format {
    /// Comma-separated values: RFC 4180, with LF.
    Csv,
    /// A JSON object on one line: RFC 8259, with LF.
    Json,
}

/// Returns a table in a format.
pub fn format_table(alloc: Global, format: Format, table: &Table<'_>) -> Result<Vec<u8>, AllocError>
    ensures text { IfOk result (λ text. text.items ≡ format_text format (table_of table.now)) }
    ensures reads { IfOk result (λ text. ReadsBack format text.items (table_of table.now)) }
{
    match format {
        Format::Csv => csv_text(alloc, table),
        Format::Json => json_text(alloc, table),
    }
}
