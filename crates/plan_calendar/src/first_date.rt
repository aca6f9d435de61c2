//! The first date of a calendar, from its text.

ghost use Rattle.std.specs.Prelude.{◌≡◌, ℕ, ◌<◌, pos, IfSome, IfNone};
ghost use Rattle.jiff_core.specs.declared.civil.date.Date.{Date as PlainDate};
ghost use Rattle.plan_calendar.specs.CalendarText.{AreTwoDigits, date_bytes, IsStartText, HasNoStart};

use jiff::civil::Date;

/// The range of years in which a calendar may begin.
pub const FIRST_YEAR: u64 = 1900;

pub const LAST_YEAR: u64 = 2199;

// A year, a month and a day, which may not form a date.
#[derive(Clone, Copy)]
pub struct DateParts {
    pub year: u64,
    pub month: u64,
    pub day: u64,
}

/// Returns the number of two digits.
pub fn two_digits(tens: u8, ones: u8) -> Option<u64>
    ensures bound { IfSome result (λ n. n < 100) }
    ensures some { IfSome result (AreTwoDigits tens ones) }
    ensures none { IfNone result ((n : ℕ) → n < 100 → AreTwoDigits tens ones n → ⊥) }
{
    if tens < b'0' || tens > b'9' {
        return None;
    }
    if ones < b'0' || ones > b'9' {
        return None;
    }
    Some((tens - b'0') as u64 * 10 + (ones - b'0') as u64)
}

// Returns the parts of a text of ten bytes `YYYY-MM-DD`.
fn date_parts(text: &[u8]) -> Option<DateParts>
    ensures bound { IfSome result (λ parts. (parts.year < 10000) × (parts.month < 100) ×
        (parts.day < 100)) }
    ensures some { IfSome result (λ parts. text.now ≡ date_bytes parts.year parts.month parts.day) }
    ensures none { IfNone result ((year month day : ℕ) → year < 10000 → month < 100 → day < 100 →
        text.now ≡ date_bytes year month day → ⊥) }
{
    if text.len() != 10 {
        return None;
    }
    if text[4] != b'-' {
        return None;
    }
    if text[7] != b'-' {
        return None;
    }
    let century = two_digits(text[0], text[1])?;
    let rest = two_digits(text[2], text[3])?;
    let month = two_digits(text[5], text[6])?;
    let day = two_digits(text[8], text[9])?;
    Some(DateParts {
        year: century * 100 + rest,
        month,
        day,
    })
}

// Returns the date with these parts, if it exists.
fn date_of(year: u64, month: u64, day: u64) -> Option<Date>
    requires year { year < 10000 }
    requires month { month < 100 }
    requires day { day < 100 }
    ensures some { IfSome result (λ date. (date.year ≡ pos year) × (date.month ≡ month) ×
        (date.day ≡ day)) }
    ensures none { IfNone result ((date : PlainDate) → date.year ≡ pos year → date.month ≡ month →
        date.day ≡ day → ⊥) }
{
    match Date::new(year as i16, month as i8, day as i8) {
        Ok(date) => Some(date),
        Err(_) => None,
    }
}

/// Parses a date: ten bytes `YYYY-MM-DD` (ISO 8601), from 1900-01-01 to 2199-12-31.
pub fn date_in(text: &[u8]) -> Option<Date>
    ensures some { IfSome result (IsStartText text.now) }
    ensures none { IfNone result (HasNoStart text.now) }
{
    let parts = date_parts(text)?;
    if parts.year < FIRST_YEAR {
        return None;
    }
    if parts.year > LAST_YEAR {
        return None;
    }
    date_of(parts.year, parts.month, parts.day)
}

// Parses the first date of a calendar.
pub fn start_date(text: &str) -> Option<Date>
    ensures some { IfSome result (IsStartText text.now) }
    ensures none { IfNone result (HasNoStart text.now) }
{
    date_in(text.as_bytes())
}
