//! The instant from which on a list of activities is planned.

use plan_calendar::date_in;

/// The latest instant of a list with dates.
const LATEST: u32 = 10_000_000;

/// The instant from which on a list of activities is planned.
#[derive(Clone, Copy)]
pub enum Now<'a> {
    /// An instant in time units.
    Instant(u32),
    /// The begin of a date of the calendar, `YYYY-MM-DD`.
    Date(&'a str),
}

/// Returns the instant or the date that a text gives.
pub(crate) fn now_of(text: &str) -> Option<Now<'_>> {
    if date_in(text.as_bytes()).is_some() {
        return Some(Now::Date(text));
    }
    let instant: u32 = text.parse().ok()?;
    if instant <= LATEST {
        Some(Now::Instant(instant))
    } else {
        None
    }
}
