//! A date or a range of dates.

ghost use Rattle.std.specs.Prelude.{◌≡◌, ℕ, IfSome, IfNone};
ghost use Rattle.jiff_core.specs.declared.civil.date.Date.{Date as PlainDate};
ghost use Rattle.plan_calendar.specs.CalendarText.{IsStartText, HasNoStart};
ghost use Rattle.plan_holidays.specs.HolidayText as spec;

use jiff::civil::Date;
use plan_calendar::date_in;

/// A first and a last date.
#[derive(Clone, Copy)]
pub struct Span {
    pub first: Date,
    pub last: Date,
}

// Returns the dates of a text of 22 bytes, one before and one after two points.
fn range_parts(entry: &[u8]) -> Option<Span>
    ensures some { IfSome result (λ span. spec.AreEnds entry.now span.first span.last) }
    ensures none { IfNone result ((first last : PlainDate) → spec.AreEnds entry.now first last → ⊥) }
{
    if entry.len() != 22 || entry[10] != b'.' || entry[11] != b'.' {
        return None;
    }
    let first = date_in(&entry[..10])?;
    let last = date_in(&entry[12..])?;
    Some(Span { first, last })
}

// Returns the range of dates that a text is.
fn range_in(entry: &[u8]) -> Option<Span>
    ensures some { IfSome result (λ span. spec.IsRange entry.now span.first span.last) }
    ensures none { IfNone result ((first last : PlainDate) → spec.IsRange entry.now first last → ⊥) }
{
    let span = range_parts(entry)?;
    let first = span.first.to_plain().days_since_min();
    let last = span.last.to_plain().days_since_min();
    if last < first {
        return None;
    }
    Some(span)
}

// Returns the date that a text is, as a first and a last date.
fn day_in(entry: &[u8]) -> Option<Span>
    ensures some { IfSome result (λ span. IsStartText entry.now span.first ×
        (span.last ≡ span.first)) }
    ensures none { IfNone result (HasNoStart entry.now) }
{
    let date = date_in(entry)?;
    Some(Span {
        first: date,
        last: date,
    })
}

/// Returns the first and the last date that a text names: a date, or `DATE..DATE`.
pub fn span_of(entry: &[u8]) -> Option<Span>
    ensures some { IfSome result (λ span. spec.IsSpan entry.now span.first span.last) }
    ensures none { IfNone result ((first last : PlainDate) → spec.IsSpan entry.now first last → ⊥) }
{
    match day_in(entry) {
        Some(span) => Some(span),
        None => range_in(entry),
    }
}
