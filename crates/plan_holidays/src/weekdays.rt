//! Weekdays in words, such as `mon-fri` or `mon,wed,fri`.

ghost use Rattle.std.specs.Prelude.{◌≡◌, ◌<◌, [], ◌∷◌, map, IfOk, IfSome, string_bytes};
ghost use Rattle.std.specs.List.{position};
ghost use Rattle.plan_calendar.specs.CalendarText.{mark_digit};
ghost use Rattle.plan_holidays.specs.WeekdayText as spec;

use std::alloc::{AllocError, Global};

/// The weekdays from a first to a last one, by their numbers; Monday is 0 and follows Sunday.
#[derive(Clone, Copy)]
pub struct Weekdays {
    pub first: u64,
    pub last: u64,
}

// Returns the weekday with this name.
fn weekday_named(name: &[u8]) -> Option<u64>
    ensures value { result ≡ spec.weekday_named name.now }
    ensures bound { IfSome result (λ day. day < 7) }
{
    if name == b"mon".as_slice() {
        return Some(0);
    }
    if name == b"tue".as_slice() {
        return Some(1);
    }
    if name == b"wed".as_slice() {
        return Some(2);
    }
    if name == b"thu".as_slice() {
        return Some(3);
    }
    if name == b"fri".as_slice() {
        return Some(4);
    }
    if name == b"sat".as_slice() {
        return Some(5);
    }
    if name == b"sun".as_slice() {
        return Some(6);
    }
    None
}

// Returns the range from one weekday to another.
fn from_to(first: Option<u64>, last: Option<u64>) -> Option<Weekdays>
    ensures { result ≡ spec.from_to first last }
{
    let first = first?;
    let last = last?;
    Some(Weekdays { first, last })
}

// Returns the index of the first hyphen.
fn first_hyphen(item: &[u8]) -> Option<usize>
    ensures { result ≡ position spec.is_hyphen item.now }
{
    item.iter().position(|&byte| byte == b'-')
}

// Returns the range of weekdays that an item names.
#[tactic(auto, using(crate::proofs::WeekdayLemmas::behind))]
fn range_of(item: &[u8]) -> Option<Weekdays>
    ensures value { result ≡ spec.range_of item.now }
    ensures bound { IfSome result (λ range. (range.first < 7) × (range.last < 7)) }
{
    match first_hyphen(item) {
        Some(end) => from_to(weekday_named(&item[..end]), weekday_named(&item[end + 1..])),
        None => from_to(weekday_named(item), weekday_named(item)),
    }
}

// Tests whether an item is a weekday or a range.
fn is_range(item: &[u8]) -> bool
    ensures { result ≡ spec.is_range (spec.range_of item.now) }
{
    range_of(item).is_some()
}

// Tests whether an item names a weekday.
fn item_has(day: u64, item: &[u8]) -> bool
    requires { day < 7 }
    ensures { result ≡ spec.item_has day item.now }
{
    match range_of(item) {
        Some(range) => (day + 7 - range.first) % 7 <= (range.last + 7 - range.first) % 7,
        None => false,
    }
}

// Tests whether each item of a text is a weekday or a range.
fn are_words(text: &[u8]) -> bool
    ensures { result ≡ spec.are_words text.now }
{
    text.split(|&byte| byte == b',').all(|item| is_range(item))
}

// Tests whether an item of a text names a weekday.
fn is_named(text: &[u8], day: u64) -> bool
    requires { day < 7 }
    ensures { result ≡ spec.is_named text.now day }
{
    text.split(|&byte| byte == b',')
        .any(|item| item_has(day, item))
}

// Returns the marks of the weekdays that a text names.
fn marks_of(text: &[u8]) -> [bool; 7]
    ensures { result ≡ spec.marks_of text.now }
{
    [
        is_named(text, 0),
        is_named(text, 1),
        is_named(text, 2),
        is_named(text, 3),
        is_named(text, 4),
        is_named(text, 5),
        is_named(text, 6),
    ]
}

// Returns the digit of a mark.
fn digit(mark: bool) -> &'static str
    ensures { result.now ≡ mark_digit mark ∷ [] }
{
    if mark { "1" } else { "0" }
}

// Returns the digits of marks.
fn digits(alloc: Global, marks: &[bool]) -> Result<String, AllocError>
    ensures { IfOk result (λ text. string_bytes text ≡ map mark_digit marks.now) }
{
    let mut text = String::new(alloc);
    for mark in marks {
        text.push_str(digit(*mark))?;
    }
    Ok(text)
}

/// Returns the marks of weekdays as seven digits `0` or `1`, Monday first. The text names weekdays:
/// names and ranges of names between commas, such as `mon-fri` or `mon,wed,sat-sun`. The names are
/// `mon`, `tue`, `wed`, `thu`, `fri`, `sat` and `sun`; a range may go over Sunday, such as
/// `sun-thu`. Any other text is returned as it is.
pub fn weekday_digits(alloc: Global, text: &str) -> Result<String, AllocError>
    ensures { IfOk result (λ made. string_bytes made ≡ spec.digits_of text.now) }
{
    if are_words(text.as_bytes()) {
        digits(alloc, &marks_of(text.as_bytes()))
    } else {
        text.to_string(alloc)
    }
}
