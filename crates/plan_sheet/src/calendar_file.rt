//! The calendar file of a plan.

ghost use Rattle.std.specs.Prelude.{◌≡◌, ◌++◌, ◌<◌, true, IfOk, OnOk, IsErrOf, map};
ghost use Rattle.std.specs.Prelude.{option_map, string_bytes};
ghost use Rattle.std.specs.List.{flat_map};
ghost use Rattle.plan_table.specs.Names.{name_of};
ghost use Rattle.plan_sheet.specs.Bars.{greatest_end};
ghost use Rattle.plan_sheet.specs.Ics.{are_short, event_text};
ghost use Rattle.plan_sheet.specs.Moments.{day_count as day_count_of};
ghost use Rattle.plan_sheet.specs.Parts as spec_parts;
ghost use Rattle.plan_sheet.specs.Feed as spec;

use crate::bars::{Bar, last_end};
use crate::days::{compact_day, days_after, working_days};
use crate::ics::{Event, push_end, push_event, push_head, text_value};
use crate::moments::{begin_stamp, day_count, end_stamp};
use crate::names::is_shown;
use crate::parts::{EventNames, Part, event_name, is_wanted, name_or_number, parts_of};
use jiff::civil::Date;
use plan_calendar::{Calendar, Hours};
use plan_gantt::DaysFault;
use plan_table::NameLine;
use std::alloc::{AllocError, Global};
use std::fmt::Write;

/// The events that a calendar file has, and what they show. [`Events::plain`] has all of them.
#[derive(Clone, Copy, Debug, Drop)]
pub struct Events<'a> {
    /// The word at the beginning of identifiers. The id follows, or the number of an activity or
    /// order without an id. `None`: the digest and the number.
    pub uid: Option<&'a str>,
    /// The number of the revision, from 0. A later file of the same plan has a greater one.
    pub sequence: u32,
    /// The name of the only resource, machine or order that has events. One without a name is
    /// called `R2` (resource 2), `machine 0`, or `3` (order 3).
    pub only: Option<&'a str>,
    /// Whether the name of an event has the resources or the machine, as
    /// `Walls (crew 2, digger 1)`.
    pub resources: bool,
    /// The hours of a working day, if a time unit is an hour: events have times of day. `None`: a
    /// time unit is a working day, and events have whole days.
    pub hours: Option<Hours>,
}

impl<'a> Events<'a> {
    /// Returns the choice of all events, by the digest and the number, without resources.
    pub fn plain() -> Events<'a>
        ensures { spec.events_of result ≡ spec.plain_events }
    {
        Events {
            uid: None,
            sequence: 0,
            only: None,
            resources: false,
            hours: None,
        }
    }
}

/// The work that the events of a plan show.
#[derive(Clone, Copy, Drop)]
pub struct Work<'a> {
    /// The digest of its file.
    pub digest: &'a str,
    pub names: EventNames<'a>,
    /// The amounts of resources. Row `k` is that of activity `k + 1`. A job shop has none.
    pub needs: &'a [&'a [u64]],
}

// Appends the mark of a step in an identifier, or nothing for an activity.
fn push_step_mark(text: &mut String, step: u32) -> Result<(), AllocError>
    ensures { OnOk result (string_bytes text.new ≡ string_bytes text.old ++ spec.step_mark step) }
{
    if step < 1 {
        return Ok(());
    }
    write!(text, "-{step}")
}

// Returns the identifier of an event: the digest, the number, and the step.
#[tactic(auto, unfolding(crate::specs::Feed::uid_of))]
fn uid_of(alloc: Global, digest: &str, bar: Bar) -> Result<String, AllocError>
    ensures { IfOk result (λ text. string_bytes text ≡ spec.uid_of digest.now bar) }
{
    let number = bar.number;
    let mut text = format!(in alloc; "{digest}-{number}")?;
    push_step_mark(&mut text, bar.step)?;
    text.push_str("@plan")?;
    Ok(text)
}

// Returns the identifier of an event by a word: the word, the id or else the number, and the step.
#[tactic(auto, unfolding(crate::specs::Feed::named_uid))]
fn named_uid(
    alloc: Global,
    word: &str,
    ids: &[NameLine<'_>],
    bar: Bar,
) -> Result<String, AllocError>
    ensures { IfOk result (λ text.
        string_bytes text ≡ spec.named_uid word.now (map name_of ids.now) bar) }
{
    let step = bar.step;
    let id = name_or_number(alloc, ids, "", u64::from(bar.number))?;
    let mut text = format!(in alloc; "{word}-{id}")?;
    push_step_mark(&mut text, step)?;
    text.push_str("@plan")?;
    text_value(alloc, &text)
}

// Returns the identifier of an event: by the word, or else by the digest.
fn event_uid(
    alloc: Global,
    work: &Work<'_>,
    events: &Events<'_>,
    bar: Bar,
) -> Result<String, AllocError>
    ensures { IfOk result (λ text. string_bytes text
        ≡ spec.event_uid (spec.events_of events.now).uid (spec.work_of work.now) bar) }
{
    match events.uid {
        Some(word) => named_uid(alloc, word, work.names.ids, bar),
        None => uid_of(alloc, work.digest, bar),
    }
}

// Returns the instant of the file: the first day of the plan at midnight in UTC.
#[tactic(auto, unfolding(crate::specs::Feed::stamp_of))]
fn stamp_of(alloc: Global, days: &[Date]) -> Result<String, AllocError>
    ensures { IfOk result (λ text. string_bytes text ≡ spec.stamp_of days.now) }
{
    let mut text = compact_day(alloc, days, 0)?;
    text.push_str("T000000Z")?;
    Ok(text)
}

// Appends the event of a bar that takes time.
fn push_bar_event(
    alloc: Global,
    text: &mut String,
    work: &Work<'_>,
    events: &Events<'_>,
    days: &[Date],
    nexts: &[Date],
    bar: Bar,
    parts: &[Part],
) -> Result<(), AllocError>
    requires time { bar.from < bar.to }
    requires parts { parts.now ≡ spec_parts.parts_of (spec.work_of work.now).needs bar }
    ensures { OnOk result (string_bytes text.new ≡ string_bytes text.old
        ++ event_text (spec.stamp_of days.now) (spec.bar_event (spec.feed_with
        (spec.work_of work.now) (spec.events_of events.now) days.now nexts.now) bar)) }
{
    let stamp = stamp_of(alloc, days)?;
    let uid = event_uid(alloc, work, events, bar)?;
    let name = event_name(alloc, events.resources, &work.names, bar, parts)?;
    let begin = begin_stamp(alloc, events.hours, days, bar.from)?;
    let end = end_stamp(alloc, events.hours, days, nexts, bar.to - 1)?;
    let event = Event {
        timed: events.hours.is_some(),
        uid: &uid,
        sequence: events.sequence,
        name: &name,
        begin: &begin,
        end: &end,
    };
    push_event(alloc, text, &stamp, &event)
}

// Tests whether the event of a bar with these parts is wanted. If there are ids, the number of the
// bar must have one.
fn is_event(
    alloc: Global,
    only: Option<&str>,
    names: &EventNames<'_>,
    bar: Bar,
    parts: &[Part],
) -> Result<bool, AllocError>
    ensures { IfOk result (λ is. is ≡ spec.is_event (option_map (λ name. name.now) only.entry)
        (spec_parts.event_names_of names.now) bar parts.now) }
{
    if is_shown(names.ids, bar.number) {
        is_wanted(alloc, only, names, bar, parts)
    } else {
        Ok(false)
    }
}

// Appends the event of a bar that takes time, or nothing if it isn't wanted.
fn push_wanted(
    alloc: Global,
    text: &mut String,
    work: &Work<'_>,
    events: &Events<'_>,
    days: &[Date],
    nexts: &[Date],
    bar: Bar,
) -> Result<(), AllocError>
    requires { bar.from < bar.to }
    ensures { OnOk result (string_bytes text.new ≡ string_bytes text.old
        ++ spec.wanted_text (spec.feed_with (spec.work_of work.now)
        (spec.events_of events.now) days.now nexts.now) bar) }
{
    let parts = parts_of(alloc, work.needs, bar)?;
    if is_event(alloc, events.only, &work.names, bar, &parts)? {
        push_bar_event(alloc, text, work, events, days, nexts, bar, &parts)
    } else {
        Ok(())
    }
}

// Appends the event of a bar, or nothing for a bar that takes no time.
fn push_bar(
    alloc: Global,
    text: &mut String,
    work: &Work<'_>,
    events: &Events<'_>,
    days: &[Date],
    nexts: &[Date],
    bar: Bar,
) -> Result<(), AllocError>
    ensures { OnOk result (string_bytes text.new ≡ string_bytes text.old
        ++ spec.bar_text (spec.feed_with (spec.work_of work.now)
        (spec.events_of events.now) days.now nexts.now) bar) }
{
    if bar.from < bar.to {
        push_wanted(alloc, text, work, events, days, nexts, bar)
    } else {
        Ok(())
    }
}

// Appends the events of bars.
fn push_bars(
    alloc: Global,
    text: &mut String,
    work: &Work<'_>,
    events: &Events<'_>,
    days: &[Date],
    nexts: &[Date],
    bars: &[Bar],
) -> Result<(), AllocError>
    ensures { OnOk result (string_bytes text.new ≡ string_bytes text.old
        ++ flat_map (spec.bar_text (spec.feed_with (spec.work_of work.now)
        (spec.events_of events.now) days.now nexts.now)) bars.now) }
{
    for &bar in bars {
        push_bar(alloc, text, work, events, days, nexts, bar)?;
    }
    Ok(())
}

// Returns a calendar file.
fn feed_text(
    alloc: Global,
    work: &Work<'_>,
    events: &Events<'_>,
    days: &[Date],
    nexts: &[Date],
    bars: &[Bar],
) -> Result<String, AllocError>
    ensures { IfOk result (λ text. string_bytes text ≡ spec.ics_text (spec.feed_with
        (spec.work_of work.now) (spec.events_of events.now) days.now nexts.now) bars.now) }
{
    let mut text = String::new(alloc);
    push_head(alloc, &mut text)?;
    push_bars(alloc, &mut text, work, events, days, nexts, bars)?;
    push_end(alloc, &mut text)?;
    Ok(text)
}

/// Returns the calendar file of bars: an event for each bar that takes time and is wanted. Without
/// hours instant `t` is the working day with `t` working days before it. Fails with
/// [`DaysFault::BeyondCalendar`] if a day would be after 9999-12-31.
pub(crate) fn bars_ics(
    alloc: Global,
    work: &Work<'_>,
    events: &Events<'_>,
    bars: &[Bar],
    calendar: &Calendar,
) -> Result<String, DaysFault>
    ensures text { IfOk result (λ text. spec.AreEvents (spec.work_of work.now)
        (spec.events_of events.now) bars.now calendar.now (string_bytes text)) }
    ensures short { IfOk result (λ text. are_short 0 (string_bytes text) ≡ true) }
    ensures beyond { IsErrOf result DaysFault.BeyondCalendar →
        spec.HasEventBeyond calendar.now
        (day_count_of (spec.events_of events.now).hours (greatest_end bars.now)) }
{
    let count = day_count(events.hours, last_end(bars));
    let days = working_days(alloc, calendar, count)?;
    let nexts = days_after(alloc, &days)?;
    let text = feed_text(alloc, work, events, &days, &nexts, bars)?;
    Ok(text)
}
