//! Times of day.

ghost use Rattle.std.specs.Prelude.{◌≡◌, ℕ, ◌<◌, ◌≤◌, ◌++◌, ◌∷◌, IfOk, IfSome, IfNone, OnOk, string_bytes};
ghost use Rattle.jiff_fmt.specs.Text.{pad2};
ghost use Rattle.plan_calendar.specs.Hours as spec;

use crate::first_date::two_digits;
use crate::weekdays::shown_date;
use jiff::civil::Date;
use std::alloc::{AllocError, Global};

// An hour and a minute, which may be too large for a time of day.
#[derive(Clone, Copy)]
pub struct TimeParts {
    pub hour: u64,
    pub minute: u64,
}

// Returns the parts of a text of five bytes `HH:MM`.
fn time_parts(text: &[u8]) -> Option<TimeParts>
    ensures bound { IfSome result (λ parts. (parts.hour < 100) × (parts.minute < 100)) }
    ensures some { IfSome result (λ parts.
        text.now ≡ pad2 parts.hour ++ 58 ∷ pad2 parts.minute) }
    ensures none { IfNone result ((hour minute : ℕ) → hour < 100 → minute < 100 →
        text.now ≡ pad2 hour ++ 58 ∷ pad2 minute → ⊥) }
{
    if text.len() != 5 {
        return None;
    }
    if text[2] != b':' {
        return None;
    }
    let hour = two_digits(text[0], text[1])?;
    let minute = two_digits(text[3], text[4])?;
    Some(TimeParts { hour, minute })
}

/// Parses a time of day: five bytes `HH:MM`, from 00:00 to 23:59. Returns its minutes after
/// midnight.
pub fn time_in(text: &[u8]) -> Option<u32>
    ensures some { IfSome result (spec.IsTimeText text.now) }
    ensures none { IfNone result (spec.HasNoTime text.now) }
{
    let parts = time_parts(text)?;
    if parts.hour > 23 {
        return None;
    }
    if parts.minute > 59 {
        return None;
    }
    Some((parts.hour * 60 + parts.minute) as u32)
}

// Appends a number below 100 in two digits.
fn push_two_digits(text: &mut String, n: u32) -> Result<(), AllocError>
    requires { n < 100 }
    ensures { OnOk result (string_bytes text.new ≡ string_bytes text.old ++ pad2 n) }
{
    text.push((b'0' + (n / 10) as u8) as char)?;
    text.push((b'0' + (n % 10) as u8) as char)
}

/// Appends a time of day as `HH:MM`. The end of the day, minute 1,440, is `24:00`.
pub fn push_time(text: &mut String, minute: u32) -> Result<(), AllocError>
    requires limit { minute ≤ 1440 }
    ensures { OnOk result (string_bytes text.new ≡ string_bytes text.old ++ spec.time_text minute) }
{
    push_two_digits(text, minute / 60)?;
    text.push(':')?;
    push_two_digits(text, minute % 60)
}

/// Appends a time of day in the basic format of ISO 8601, as `T090000`.
pub fn push_clock(text: &mut String, minute: u32) -> Result<(), AllocError>
    requires limit { minute ≤ 1440 }
    ensures { OnOk result (string_bytes text.new ≡ string_bytes text.old ++ spec.clock_text minute) }
{
    text.push('T')?;
    push_two_digits(text, minute / 60)?;
    push_two_digits(text, minute % 60)?;
    text.push_str("00")
}

/// Returns a date as `2026-11-30`, with its weekday as `Mon 2026-11-30`, and with a time of day
/// behind it, as `2026-11-30 09:00`.
pub fn shown_moment(
    alloc: Global,
    weekdays: bool,
    date: Date,
    minute: Option<u32>,
) -> Result<String, AllocError>
    requires limit { IfSome minute (λ m. m ≤ 1440) }
    ensures { IfOk result (λ text. string_bytes text ≡ spec.shown_moment weekdays date minute) }
{
    let mut text = shown_date(alloc, weekdays, date)?;
    if let Some(minute) = minute {
        text.push(' ')?;
        push_time(&mut text, minute)?;
    }
    Ok(text)
}
