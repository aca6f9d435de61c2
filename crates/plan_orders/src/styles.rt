//! The weekdays and the hours of days that the arguments give.

use clap::ArgMatches;
use plan_cli::{CliFault, MomentStyle, unit_of};
use plan_print::{DayStyle, hours_of};
use std::alloc::Global;

/// A day in thousandths of a day.
const DAY: u64 = 1000;

/// The time at which a working day begins if no time is given.
const DEFAULT_OPENS: &str = "00:00";

// Returns the arguments of a command that has the options `weekdays`, `per-day` and `opens`.
fn dated<'a, 'b>(matches: &'a ArgMatches<'b>) -> Option<&'a ArgMatches<'b>> {
    match matches.subcommand()? {
        ("days" | "report", arguments) => Some(arguments),
        _ => None,
    }
}

/// Returns how the arguments want days to be shown. The error is `G7 hours`.
pub fn style_of(alloc: Global, matches: &ArgMatches<'_>) -> Result<DayStyle, CliFault> {
    let Some(arguments) = dated(matches) else {
        return Ok(DayStyle::plain());
    };
    let per_day: Option<u32> = arguments.get_one("per-day");
    let opens = arguments.get_str("opens").unwrap_or(DEFAULT_OPENS);
    Ok(DayStyle {
        weekdays: arguments.get_flag("weekdays"),
        hours: hours_of(alloc, per_day.unwrap_or(1), opens)?,
    })
}

/// Returns the same for a table of days, or nothing for dates alone.
pub fn moments_of(style: &DayStyle) -> Option<MomentStyle> {
    if !style.weekdays && style.hours.is_none() {
        return None;
    }
    Some(MomentStyle {
        weekdays: style.weekdays,
        hours: style.hours,
    })
}

// Whether the arguments give a list a unit of time other than a day.
fn has_other_unit(arguments: &ArgMatches<'_>) -> bool {
    let [text, ..] = arguments.get_strs("unit").unwrap_or(&[]) else {
        return false;
    };
    match unit_of(text.as_bytes()) {
        Some(unit) => unit != DAY,
        None => false,
    }
}

// Whether a command prints dates.
fn is_dated(name: &str, arguments: &ArgMatches<'_>) -> bool {
    match name {
        "days" => true,
        "report" => arguments.get_str("start").is_some(),
        _ => false,
    }
}

/// Whether the arguments want dates of a list whose unit isn't a day, and don't say how many units a
/// working day has.
pub fn lacks_per_day(matches: &ArgMatches<'_>) -> bool {
    let Some((name, arguments)) = matches.subcommand() else {
        return false;
    };
    let per_day: Option<u32> = arguments.get_one("per-day");
    is_dated(name, arguments) && has_other_unit(arguments) && per_day.is_none()
}
