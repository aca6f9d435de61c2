//! The lines of calendar files (RFC 5545).

ghost use Rattle.std.specs.Prelude.{◌≡◌, ◌++◌, ◌≤◌, IfOk, OnOk, string_bytes};
ghost use Rattle.plan_sheet.specs.Ics as spec;

use crate::escape::shown;
use std::alloc::{AllocError, Global};

/// An event. Dates are eight digits, as `20240301`, moments with a time `20240301T090000`.
#[derive(Drop)]
pub struct Event<'a> {
    /// Whether it has times of day; else it has whole days.
    pub timed: bool,
    /// The identifier of the event, unique in the world.
    pub uid: &'a str,
    /// The number of its revision, from 0.
    pub sequence: u32,
    pub name: &'a str,
    /// The first day, or the moment at which it begins.
    pub begin: &'a str,
    /// The day after the last one, or the moment at which it ends.
    pub end: &'a str,
}

// Appends a character of a text value (section 3.3.11).
#[tactic(auto, unfolding(crate::specs::Ics::text_char))]
fn push_text_char(text: &mut String, c: char) -> Result<(), AllocError>
    ensures { OnOk result (string_bytes text.new ≡ string_bytes text.old ++ spec.text_char c) }
{
    match c {
        '\\' => text.push_str("\\\\"),
        ';' => text.push_str("\\;"),
        ',' => text.push_str("\\,"),
        '\n' => text.push_str("\\n"),
        _ => text.push(shown(c)),
    }
}

/// Returns a text value: backslash, semicolon, comma and newline escaped by a backslash (RFC 5545,
/// section 3.3.11), other control characters as U+FFFD.
pub(crate) fn text_value(alloc: Global, text: &str) -> Result<String, AllocError>
    ensures text { IfOk result (λ value. string_bytes value ≡ spec.text_value text.now) }
{
    let mut value = String::new(alloc);
    for c in text.chars() {
        push_text_char(&mut value, c)?;
    }
    Ok(value)
}

// Appends a character to a line with `used` bytes, behind a fold if the line has no room for it.
// Returns the bytes of the line with it.
#[tactic(auto, unfolding(crate::specs::Ics::folded_char, crate::specs::Ics::used_with))]
fn push_folded(text: &mut String, used: u32, c: char) -> Result<u32, AllocError>
    requires { used ≤ 75 }
    ensures text { IfOk result (λ _.
        string_bytes text.new ≡ string_bytes text.old ++ spec.folded_char used c) }
    ensures used { IfOk result (λ now. now ≡ spec.used_with used c) }
    ensures limit { IfOk result (λ now. now ≤ 75) }
{
    let length = c.len_utf8() as u32;
    if used + length <= 75 {
        text.push(c)?;
        Ok(used + length)
    } else {
        text.push_str("\r\n ")?;
        text.push(c)?;
        Ok(1 + length)
    }
}

// Appends the characters of a content line, folded so that no line has more than 75 bytes
// (section 3.1).
fn push_chars(text: &mut String, line: &str) -> Result<(), AllocError>
    ensures { OnOk result
        (string_bytes text.new ≡ string_bytes text.old ++ spec.folded_text line.now) }
{
    let mut used = 0;
    for c in line.chars() {
        used = push_folded(text, used, c)?;
    }
    Ok(())
}

// Appends a content line.
#[tactic(auto, unfolding(crate::specs::Ics::content_line))]
fn push_line(text: &mut String, line: &str) -> Result<(), AllocError>
    ensures { OnOk result
        (string_bytes text.new ≡ string_bytes text.old ++ spec.content_line line.now) }
{
    push_chars(text, line)?;
    text.push_str("\r\n")
}

// Appends a property: its name with its parameters and the colon, and its value.
#[tactic(auto, unfolding(crate::specs::Ics::property))]
fn push_property(
    alloc: Global,
    text: &mut String,
    name: &str,
    value: &str,
) -> Result<(), AllocError>
    ensures { OnOk result
        (string_bytes text.new ≡ string_bytes text.old ++ spec.property name.now value.now) }
{
    let line = format!(in alloc; "{name}{value}")?;
    push_line(text, &line)
}

// The first properties of an event.
fn push_event_head(
    alloc: Global,
    text: &mut String,
    stamp: &str,
    uid: &str,
) -> Result<(), AllocError>
    ensures { OnOk result
        (string_bytes text.new ≡ string_bytes text.old ++ spec.event_head stamp.now uid.now) }
{
    push_property(alloc, text, "BEGIN:", "VEVENT")?;
    push_property(alloc, text, "UID:", uid)?;
    push_property(alloc, text, "DTSTAMP:", stamp)
}

// The revision of an event; nothing for revision 0.
#[tactic(auto, unfolding(crate::specs::Ics::event_sequence))]
fn push_event_sequence(alloc: Global, text: &mut String, sequence: u32) -> Result<(), AllocError>
    ensures { OnOk result
        (string_bytes text.new ≡ string_bytes text.old ++ spec.event_sequence sequence) }
{
    if sequence < 1 {
        return Ok(());
    }
    let number = format!(in alloc; "{sequence}")?;
    push_property(alloc, text, "SEQUENCE:", &number)
}

// The days of an event.
fn push_event_days(
    alloc: Global,
    text: &mut String,
    first_day: &str,
    end_day: &str,
) -> Result<(), AllocError>
    ensures { OnOk result
        (string_bytes text.new
        ≡ string_bytes text.old ++ spec.event_days first_day.now end_day.now) }
{
    push_property(alloc, text, "DTSTART;VALUE=DATE:", first_day)?;
    push_property(alloc, text, "DTEND;VALUE=DATE:", end_day)
}

// The times of day of an event.
fn push_event_clocks(
    alloc: Global,
    text: &mut String,
    begin: &str,
    end: &str,
) -> Result<(), AllocError>
    ensures { OnOk result
        (string_bytes text.new ≡ string_bytes text.old ++ spec.event_clocks begin.now end.now) }
{
    push_property(alloc, text, "DTSTART:", begin)?;
    push_property(alloc, text, "DTEND:", end)
}

// The days or the times of an event.
fn push_event_times(
    alloc: Global,
    text: &mut String,
    timed: bool,
    begin: &str,
    end: &str,
) -> Result<(), AllocError>
    ensures { OnOk result (string_bytes text.new
        ≡ string_bytes text.old ++ spec.event_times timed begin.now end.now) }
{
    if timed {
        push_event_clocks(alloc, text, begin, end)
    } else {
        push_event_days(alloc, text, begin, end)
    }
}

// The last properties of an event.
fn push_event_tail(alloc: Global, text: &mut String, name: &str) -> Result<(), AllocError>
    ensures { OnOk result
        (string_bytes text.new ≡ string_bytes text.old ++ spec.event_tail name.now) }
{
    let value = text_value(alloc, name)?;
    push_property(alloc, text, "SUMMARY:", &value)?;
    push_property(alloc, text, "END:", "VEVENT")
}

/// Appends an event. `stamp` is the instant of the file in UTC, as `20240301T000000Z`.
#[tactic(auto, unfolding(crate::specs::Ics::event_text))]
pub(crate) fn push_event(
    alloc: Global,
    text: &mut String,
    stamp: &str,
    event: &Event<'_>,
) -> Result<(), AllocError>
    ensures { OnOk result (string_bytes text.new
        ≡ string_bytes text.old ++ spec.event_text stamp.now (spec.event_of event.now)) }
{
    push_event_head(alloc, text, stamp, event.uid)?;
    push_event_sequence(alloc, text, event.sequence)?;
    push_event_times(alloc, text, event.timed, event.begin, event.end)?;
    push_event_tail(alloc, text, event.name)
}

/// Appends the first properties of a calendar file.
#[tactic(auto, unfolding(crate::specs::Ics::calendar_head))]
pub(crate) fn push_head(alloc: Global, text: &mut String) -> Result<(), AllocError>
    ensures { OnOk result
        (string_bytes text.new ≡ string_bytes text.old ++ spec.calendar_head) }
{
    push_property(alloc, text, "BEGIN:", "VCALENDAR")?;
    push_property(alloc, text, "VERSION:", "2.0")?;
    push_property(alloc, text, "PRODID:", "-//plan//plan//EN")
}

/// Appends the last property of a calendar file.
#[tactic(auto, unfolding(crate::specs::Ics::calendar_end))]
pub(crate) fn push_end(alloc: Global, text: &mut String) -> Result<(), AllocError>
    ensures { OnOk result (string_bytes text.new ≡ string_bytes text.old ++ spec.calendar_end) }
{
    push_property(alloc, text, "END:", "VCALENDAR")
}
