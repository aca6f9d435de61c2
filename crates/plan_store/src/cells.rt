//! The values of a row of a query. A value of another type is a fault of the store.

ghost use Rattle.std.specs.Prelude.{◌≡◌, ◌<◌, ◌^◌, ℕ, length, pos, string_bytes};
ghost use Rattle.std.specs.Prelude.{IfOk, IfErr};
ghost use Rattle.sqlite_value.specs.declared.value.Value.TheVariants.{Int, Text, Blob};
ghost use Rattle.sqlite_value.specs.Order.{column};
ghost use Rattle.plan_rows.specs.Names.{kind_text, plan_kind_text};
ghost use Rattle.plan_store.specs.Rows.{digest_in};

use crate::fault::fault_of;
use plan_rows::{BookFault, Kind, PlanKind};
use sqlite::Row;
use sqlite::types::ValueRef;

/// Reads a number.
pub fn number_at(row: &Row, at: usize) -> Result<u64, BookFault>
    ensures shown { IfOk result (λ n. column row.now at ≡ Int (pos n)) }
    // A number below 2^64 is never a fault of the store.
    ensures blamed { IfErr result (λ fault. fault ≡ BookFault.Store → at < length row.now
        → (n : ℕ) → n < 2 ^ 64 → column row.now at ≡ Int (pos n) → ⊥) }
{
    row.get(at).map_err(fault_of)
}

/// Reads a text.
pub fn text_at(row: &Row, at: usize) -> Result<String, BookFault>
    ensures { IfOk result (λ text. column row.now at ≡ Text (string_bytes text)) }
{
    row.get(at).map_err(fault_of)
}

/// Reads bytes.
pub fn bytes_at(row: &Row, at: usize) -> Result<Vec<u8>, BookFault>
    ensures { IfOk result (λ bytes. column row.now at ≡ Blob bytes.items) }
{
    row.get(at).map_err(fault_of)
}

// Reads the bytes of a text.
fn letters_at(row: &Row, at: usize) -> Result<&[u8], BookFault>
    ensures { IfOk result (λ text. column row.now at ≡ Text text.now) }
{
    match row.get_ref(at) {
        Ok(ValueRef::Text(text)) => Ok(text),
        _ => Err(BookFault::Store),
    }
}

/// Reads the kind of a published code.
pub fn kind_at(row: &Row, at: usize) -> Result<Kind, BookFault>
    ensures { IfOk result (λ kind. column row.now at ≡ Text (kind_text kind)) }
{
    Kind::of_word(letters_at(row, at)?).ok_or(BookFault::Store)
}

/// Reads the kind of a plan.
pub fn plan_kind_at(row: &Row, at: usize) -> Result<PlanKind, BookFault>
    ensures { IfOk result (λ kind. column row.now at ≡ Text (plan_kind_text kind)) }
{
    PlanKind::of_word(letters_at(row, at)?).ok_or(BookFault::Store)
}

/// Reads a digest.
pub fn digest_at(row: &Row, at: usize) -> Result<[u8; 32], BookFault>
    ensures { IfOk result (λ digest. digest_in (column row.now at) ≡ digest) }
{
    let text = letters_at(row, at)?;
    let mut digest = [0; 32];
    hex::decode_to_slice(text, &mut digest).map_err(|_| BookFault::Store)?;
    Ok(digest)
}

/// Reads the number of an activity.
pub fn small_at(row: &Row, at: usize) -> Result<u32, BookFault>
    ensures { IfOk result (λ n. column row.now at ≡ Int (pos n)) }
{
    row.get(at).map_err(fault_of)
}
