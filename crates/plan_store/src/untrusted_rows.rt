//! The rows of an untrusted database. A row that an office can't have is read as `None`.

ghost use Rattle.std.specs.Prelude.{◌≡◌, ◌≢◌, ◌<◌, ◌^◌, ℕ, true, List};
ghost use Rattle.std.specs.Prelude.{length, string_bytes, IsUtf8, Option, option_map};
ghost use Rattle.std.specs.Prelude.{IfOk, MatchOption};
ghost use Rattle.sqlite_value.specs.declared.value.Value.TheVariants.{Text, Blob};
ghost use Rattle.sqlite_value.specs.Order.{Row as Shown, column};
ghost use Rattle.plan_rows.specs.World.{Digest};
ghost use Rattle.plan_rows.specs.Names.{is_digest, kind_text, plan_kind_text};
ghost use Rattle.plan_rows.specs.Books.{published_in};
ghost use Rattle.plan_rows.specs.Tables.{desk_kept, plan_kept, bind_kept, lag_kept};
ghost use Rattle.plan_store.specs.Rows.{number_value, digest_value, written_code};
ghost use Rattle.plan_store.specs.Rows.{written_desk, written_plan, written_bind, written_lag};
ghost use Rattle.plan_store.specs.UntrustedRows.{HoldsCode, HoldsDesk, HoldsPlan, HoldsBind};
ghost use Rattle.plan_store.specs.UntrustedRows.{HoldsLag, HoldsMeta, shown_meta};
ghost use Rattle.plan_store.specs.UntrustedRows.{TakesRow, TakesAll};

use crate::numbers::digits_of;
use plan_rows::{
    BindRecord, BookFault, CodeRow, DeskRecord, Kind, LagRecord, PlanKind, PlanRecord,
};
use sqlite::types::{FromSql, ValueRef};
use sqlite::{Error, ErrorCode, Row};
use std::alloc::Global;

// Reads a value, if it has this type.
fn try_value<T: FromSql>(row: &Row, at: usize) -> Result<Option<T>, BookFault>
    requires { at < length row.now }
    ensures { IfOk result (λ found. MatchOption found
        (T.is_readable (column row.now at) → ⊥) (T.reads_as (column row.now at))) }
{
    match row.get(at) {
        Ok(value) => Ok(Some(value)),
        Err(Error::SqliteFailure(ErrorCode::OutOfMemory)) => Err(BookFault::NoMemory),
        Err(_) => Ok(None),
    }
}

// Reads the number of an activity.
fn try_small(row: &Row, at: usize) -> Option<u32>
    requires { at < length row.now }
    ensures { MatchOption result ((n : ℕ) → n < 2 ^ 32 → column row.now at ≢ number_value n)
        (λ n. (column row.now at ≡ number_value n) × (n < 2 ^ 32)) }
{
    match row.get_ref(at) {
        Ok(ValueRef::Int(number)) => u32::try_from(number).ok(),
        _ => None,
    }
}

// Reads the bytes of a text.
fn try_letters(row: &Row, at: usize) -> Option<&[u8]>
    requires { at < length row.now }
    ensures { MatchOption result ((text : _) → column row.now at ≢ Text text)
        (λ text. column row.now at ≡ Text text.now) }
{
    match row.get_ref(at) {
        Ok(ValueRef::Text(text)) => Some(text),
        _ => None,
    }
}

// Reads the kind of a published code.
fn try_kind(row: &Row, at: usize) -> Option<Kind>
    requires { at < length row.now }
    ensures { MatchOption result ((kind : _) → column row.now at ≢ Text (kind_text kind))
        (λ kind. column row.now at ≡ Text (kind_text kind)) }
{
    Kind::of_word(try_letters(row, at)?)
}

// Reads the kind of a plan.
fn try_plan_kind(row: &Row, at: usize) -> Option<PlanKind>
    requires { at < length row.now }
    ensures { MatchOption result ((kind : _) → column row.now at ≢ Text (plan_kind_text kind))
        (λ kind. column row.now at ≡ Text (plan_kind_text kind)) }
{
    PlanKind::of_word(try_letters(row, at)?)
}

// Reads a digest, in 64 lower-case hexadecimal digits.
fn try_digest(row: &Row, at: usize) -> Result<Option<[u8; 32]>, BookFault>
    requires { at < length row.now }
    ensures { IfOk result (λ found. MatchOption found
        ((digest : Digest) → is_digest digest ≡ true
        → column row.now at ≢ digest_value digest)
        (λ digest. (column row.now at ≡ digest_value digest) × (is_digest digest ≡ true))) }
{
    let Some(text) = try_letters(row, at) else {
        return Ok(None);
    };
    let mut digest = [0; 32];
    if hex::decode_to_slice(text, &mut digest).is_err() {
        return Ok(None);
    }
    let digits = digits_of(&digest)?;
    if digits.as_slice() == text {
        Ok(Some(digest))
    } else {
        Ok(None)
    }
}

// Reads the desk and the number of a plan, the first two columns of a plan, a bind and a lag.
fn try_owner(row: &Row) -> Result<Option<(String, u64)>, BookFault>
    requires { 1 < length row.now }
    ensures { IfOk result (λ found. MatchOption found
        ((desk : List ℕ) (n : ℕ) → IsUtf8 desk
        → column row.now 0 ≡ Text desk → column row.now 1 ≡ number_value n → ⊥)
        (λ owner. (column row.now 0 ≡ Text (string_bytes owner.0))
        × (column row.now 1 ≡ number_value owner.1))) }
{
    let Some(desk) = try_value(row, 0)? else {
        return Ok(None);
    };
    let Some(n) = try_value(row, 1)? else {
        return Ok(None);
    };
    Ok(Some((desk, n)))
}

// Reads the name and the file of a plan.
fn try_file(row: &Row) -> Result<Option<(String, Vec<u8>)>, BookFault>
    requires { 4 < length row.now }
    ensures { IfOk result (λ found. MatchOption found
        ((name body : List ℕ) → IsUtf8 name
        → column row.now 3 ≡ Text name → column row.now 4 ≡ Blob body → ⊥)
        (λ file. (column row.now 3 ≡ Text (string_bytes file.0))
        × (column row.now 4 ≡ Blob file.1.items))) }
{
    let Some(name) = try_value(row, 3)? else {
        return Ok(None);
    };
    let Some(body) = try_value(row, 4)? else {
        return Ok(None);
    };
    Ok(Some((name, body)))
}

// Reads the two texts of a calendar.
fn try_calendar(row: &Row) -> Result<Option<(String, String)>, BookFault>
    requires { 6 < length row.now }
    ensures { IfOk result (λ found. MatchOption found
        ((start days : List ℕ) → IsUtf8 start → IsUtf8 days
        → column row.now 5 ≡ Text start → column row.now 6 ≡ Text days → ⊥)
        (λ texts. (column row.now 5 ≡ Text (string_bytes texts.0))
        × (column row.now 6 ≡ Text (string_bytes texts.1)))) }
{
    let Some(start) = try_value(row, 5)? else {
        return Ok(None);
    };
    let Some(days) = try_value(row, 6)? else {
        return Ok(None);
    };
    Ok(Some((start, days)))
}

/// A type that is read from a row of an untrusted database.
pub trait TryFromRow: Drop {
    /// The row shows this value, or no value that an office can have.
    ghost takes: { Shown → Option Self → Type 0 };

    /// Reads a row.
    fn try_from_row(row: &Row) -> Result<Option<Self>, BookFault>
        ensures { IfOk result (takes row.now) };
}

/// Reads all rows of a query. It returns `None` if one of them is invalid.
pub fn try_all<T: TryFromRow>(alloc: Global, rows: &[Row]) -> Result<Option<Vec<T>>, BookFault>
    ensures { IfOk result (λ found. TakesAll T.takes rows.now (option_map (λ v. v.items) found)) }
{
    let mut all = Vec::new(alloc);
    for row in rows {
        match T::try_from_row(row)? {
            Some(taken) => all.push(taken)?,
            None => return Ok(None),
        }
    }
    Ok(Some(all))
}

impl TryFromRow for (i64, [u8; 32]) {
    ghost takes = { TakesRow shown_meta HoldsMeta };

    fn try_from_row(row: &Row) -> Result<Option<(i64, [u8; 32])>, BookFault> {
        if row.column_count() != 3 {
            return Ok(None);
        }
        if try_value(row, 0)? != Some(1i64) {
            return Ok(None);
        }
        let Some(version) = try_value(row, 1)? else {
            return Ok(None);
        };
        let Some(digest) = try_digest(row, 2)? else {
            return Ok(None);
        };
        Ok(Some((version, digest)))
    }
}

impl TryFromRow for CodeRow {
    ghost takes = { λ row found.
        TakesRow written_code HoldsCode row (option_map published_in found) };

    fn try_from_row(row: &Row) -> Result<Option<CodeRow>, BookFault> {
        if row.column_count() != 3 {
            return Ok(None);
        }
        let Some(code) = try_value(row, 0)? else {
            return Ok(None);
        };
        let Some(kind) = try_kind(row, 1) else {
            return Ok(None);
        };
        let Some(capacity) = try_value(row, 2)? else {
            return Ok(None);
        };
        Ok(Some(CodeRow {
            code,
            kind,
            capacity,
        }))
    }
}

impl TryFromRow for DeskRecord {
    ghost takes = { λ row found.
        TakesRow written_desk HoldsDesk row (option_map desk_kept found) };

    fn try_from_row(row: &Row) -> Result<Option<DeskRecord>, BookFault> {
        if row.column_count() != 3 {
            return Ok(None);
        }
        let Some(desk) = try_value(row, 0)? else {
            return Ok(None);
        };
        let Some(digest) = try_digest(row, 1)? else {
            return Ok(None);
        };
        let Some(next) = try_value(row, 2)? else {
            return Ok(None);
        };
        Ok(Some(DeskRecord { desk, digest, next }))
    }
}

impl TryFromRow for PlanRecord {
    ghost takes = { λ row found.
        TakesRow written_plan HoldsPlan row (option_map plan_kept found) };

    fn try_from_row(row: &Row) -> Result<Option<PlanRecord>, BookFault> {
        if row.column_count() != 7 {
            return Ok(None);
        }
        let Some((desk, n)) = try_owner(row)? else {
            return Ok(None);
        };
        let Some(kind) = try_plan_kind(row, 2) else {
            return Ok(None);
        };
        let Some((name, body)) = try_file(row)? else {
            return Ok(None);
        };
        let Some((start, days)) = try_calendar(row)? else {
            return Ok(None);
        };
        Ok(Some(PlanRecord {
            desk,
            n,
            kind,
            name,
            body,
            start,
            days,
        }))
    }
}

impl TryFromRow for BindRecord {
    ghost takes = { λ row found.
        TakesRow written_bind HoldsBind row (option_map bind_kept found) };

    fn try_from_row(row: &Row) -> Result<Option<BindRecord>, BookFault> {
        if row.column_count() != 4 {
            return Ok(None);
        }
        let Some((desk, n)) = try_owner(row)? else {
            return Ok(None);
        };
        let Some(place) = try_value(row, 2)? else {
            return Ok(None);
        };
        let Some(code) = try_value(row, 3)? else {
            return Ok(None);
        };
        Ok(Some(BindRecord {
            desk,
            n,
            place,
            code,
        }))
    }
}

impl TryFromRow for LagRecord {
    ghost takes = { λ row found.
        TakesRow written_lag HoldsLag row (option_map lag_kept found) };

    fn try_from_row(row: &Row) -> Result<Option<LagRecord>, BookFault> {
        if row.column_count() != 5 {
            return Ok(None);
        }
        let Some((desk, n)) = try_owner(row)? else {
            return Ok(None);
        };
        let Some(from) = try_small(row, 2) else {
            return Ok(None);
        };
        let Some(to) = try_small(row, 3) else {
            return Ok(None);
        };
        let Some(lag) = try_value(row, 4)? else {
            return Ok(None);
        };
        Ok(Some(LagRecord {
            desk,
            n,
            from,
            to,
            lag,
        }))
    }
}
