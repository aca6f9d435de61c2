//! Columns of a table.

/// The place of a column in the text.
#[derive(Clone, Copy, Debug, PartialEq, Eq)]
pub enum Layout {
    /// Aligned right in this many characters. A longer text isn't cut.
    Right(usize),
    /// ` *` at this place of the row if the cell is the flag `true`. The text has no heading for
    /// it.
    Mark,
    /// The same mark or two blanks, so that columns can follow. The heading has two blanks.
    WideMark,
    /// Behind the longest of the rows that have a label, and a blank. The heading is a label too.
    Label,
    /// The text of the cell. A table with such a column has no line of headings.
    Line,
    /// A blank, and then as `Right`, but counted in characters of UTF-8, not in bytes.
    Words(usize),
    /// No place in the text and no field in CSV: a member of JSON.
    Member,
}

/// A column: its heading in the text, in CSV and in JSON, and its word, a second name in JSON.
#[derive(Clone, Copy, Debug, PartialEq, Eq)]
pub struct Column {
    pub heading: &'static str,
    pub word: &'static str,
    pub layout: Layout,
}
