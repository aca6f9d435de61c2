//! JSON texts.

ghost use Rattle.std.specs.Prelude.{◌≡◌, ◌≤◌, IfOk, false};
ghost use Rattle.serde_json.specs.Data.{depth};
ghost use Rattle.serde_json.specs.Read.{max_depth};
ghost use Rattle.serde_json.specs.View.{view};
ghost use Rattle.serde_json.specs.Written.{has_float};
ghost use Rattle.plan_formats.specs.Tables.{table_of};
ghost use Rattle.plan_formats.specs.JsonData.{data_of};
ghost use Rattle.plan_formats.specs.JsonText as spec;

use crate::json_value::table_value;
use crate::table::Table;
use serde_json::Value;
use std::alloc::{AllocError, Global};

/// Returns a value as a line: its JSON text without white space, and LF.
pub fn value_line(alloc: Global, value: &Value) -> Result<Vec<u8>, AllocError>
    requires whole { has_float (view value.now) ≡ false }
    requires flat { depth (view value.now) ≤ max_depth }
    ensures text { IfOk result (λ text. text.items ≡ spec.json_text_of (view value.now)) }
    ensures reads { IfOk result (λ text. spec.IsLineOf text.items (view value.now)) }
{
    let mut text = value.to_string(alloc)?;
    text.push_str("\n")?;
    Ok(text.into_bytes())
}

/// Returns a table as a line of JSON (RFC 8259): an object with the values of its lines and the
/// array `rows`, which has an object for each row. A cell is a member under the heading of its
/// column, and the same under the column's word. The members of an object are in the order of the
/// bytes of their names; if a name occurs twice, its last value counts. In texts, each maximal part
/// that isn't UTF-8 becomes U+FFFD. An empty cell is `null`.
pub fn json_text(alloc: Global, table: &Table<'_>) -> Result<Vec<u8>, AllocError>
    ensures text { IfOk result (λ text.
        text.items ≡ spec.json_text_of (data_of (table_of table.now))) }
    ensures reads { IfOk result (λ text.
        spec.IsLineOf text.items (data_of (table_of table.now))) }
{
    let value = table_value(alloc, table)?;
    value_line(alloc, &value)
}
