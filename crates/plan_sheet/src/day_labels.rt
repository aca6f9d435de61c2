//! Days as an axis shows them.

ghost use Rattle.std.specs.Prelude.{◌≡◌, ◌++◌, IfOk, OnOk, string_bytes};
ghost use Rattle.plan_sheet.specs.DayLabels as spec;

use crate::axis::day_number;
use crate::days::day_text;
use jiff::civil::Date;
use std::alloc::{AllocError, Global};
use std::fmt::Write;

// Returns the name of a day of the week, from Monday on.
#[tactic(auto, unfolding(crate::specs::DayLabels::weekday_name))]
fn weekday_name(n: u32) -> &'static str
    ensures { result.now ≡ spec.weekday_name n }
{
    match n {
        0 => "Mon",
        1 => "Tue",
        2 => "Wed",
        3 => "Thu",
        4 => "Fri",
        5 => "Sat",
        _ => "Sun",
    }
}

// Returns the name of a month.
#[tactic(auto, unfolding(crate::specs::DayLabels::month_name))]
fn month_name(n: u8) -> &'static str
    ensures { result.now ≡ spec.month_name n }
{
    match n {
        1 => "Jan",
        2 => "Feb",
        3 => "Mar",
        4 => "Apr",
        5 => "May",
        6 => "Jun",
        7 => "Jul",
        8 => "Aug",
        9 => "Sep",
        10 => "Oct",
        11 => "Nov",
        _ => "Dec",
    }
}

// Appends the number of a day between the names.
#[tactic(auto, unfolding(crate::specs::DayLabels::number_part))]
fn push_number_part(text: &mut String, number: u8) -> Result<(), AllocError>
    ensures { OnOk result
        (string_bytes text.new ≡ string_bytes text.old ++ spec.number_part number) }
{
    write!(text, " {number} ")
}

// Returns a day with its name, as in `Mon 30 Nov`.
#[tactic(auto, unfolding(crate::specs::DayLabels::weekday_text))]
fn weekday_text(alloc: Global, day: Date) -> Result<String, AllocError>
    ensures { IfOk result (λ text. string_bytes text ≡ spec.weekday_text day) }
{
    let plain = day.to_plain();
    let mut text = String::new(alloc);
    text.push_str(weekday_name(day_number(day) % 7))?;
    push_number_part(&mut text, plain.day)?;
    text.push_str(month_name(plain.month))?;
    Ok(text)
}

/// Returns the label of instant `t` on an axis of this length: its day with its name, or its date if
/// the axis is longer than a year. It is empty for an instant without a day.
pub(crate) fn axis_label(
    alloc: Global,
    span: u32,
    days: &[Date],
    t: u32,
) -> Result<String, AllocError>
    ensures { IfOk result (λ text. string_bytes text ≡ spec.axis_label span days.now t) }
{
    if 366 < span {
        return day_text(alloc, days, t);
    }
    match days.get(t as usize) {
        Some(&day) => weekday_text(alloc, day),
        None => Ok(String::new(alloc)),
    }
}
