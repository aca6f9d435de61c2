//! Tables as values, and their texts: plain text, CSV and JSON.
#![tactic(auto)]

mod cell;
mod column;
mod csv_records;
mod day_text;
mod format;
mod id_table;
mod json_lines;
mod json_value;
mod line;
mod line_text;
mod name_columns;
mod named_table;
mod plain_text;
mod table;
mod utf8;

pub use cell::{Cell, day_cell};
pub use column::{Column, Layout};
pub use csv_records::csv_text;
pub use format::{Format, format_table};
pub use id_table::with_ids;
pub use json_lines::{json_text, value_line};
pub use line::Line;
pub use named_table::{with_column, with_names};
pub use plain_text::table_text;
pub use table::Table;
pub use utf8::characters;
