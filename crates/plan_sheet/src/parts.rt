//! The resources and machines of events.

ghost use Rattle.std.specs.Prelude.{◌≡◌, ◌++◌, ◌<◌, ◌-◌, IfOk, OnOk, length, map, slice_get};
ghost use Rattle.std.specs.Prelude.{string_bytes};
ghost use Rattle.std.specs.Option.{option_map};
ghost use Rattle.plan_table.specs.Names.{name_of};
ghost use Rattle.plan_sheet.specs.Names.{name_text};
ghost use Rattle.plan_sheet.specs.Parts as spec;

use crate::bars::Bar;
use crate::titles::{push_step_part, title_of};
use plan_table::{NameLine, first_name};
use std::alloc::{AllocError, Global};
use std::fmt::Write;

/// The names of a plan. The number of an activity or a resource is that in its file; orders are
/// numbered from 1, machines from 0. The first name of a number counts.
#[derive(Clone, Copy, Drop)]
pub struct EventNames<'a> {
    /// The ids of its activities or orders.
    pub ids: &'a [NameLine<'a>],
    /// The names of its activities or orders.
    pub names: &'a [NameLine<'a>],
    /// The names of its resources or machines.
    pub resources: &'a [NameLine<'a>],
}

/// A resource that an activity needs, with the amount, or the machine of a step.
#[derive(Clone, Copy)]
pub struct Part {
    pub number: u64,
    /// 0 for a machine.
    pub amount: u64,
}

// Returns the first name of a number, or an empty text if it has none.
fn text_of_number(alloc: Global, names: &[NameLine<'_>], n: u64) -> Result<String, AllocError>
    ensures { IfOk result (λ text. string_bytes text ≡ name_text (map name_of names.now) n) }
{
    match first_name(names, n) {
        Some(name) => String::from_utf8_lossy(alloc, name),
        None => Ok(String::new(alloc)),
    }
}

/// Returns the first name of a number, or `front` and the number if it has none.
#[tactic(auto, unfolding(crate::specs::Parts::name_or_number))]
pub(crate) fn name_or_number(
    alloc: Global,
    names: &[NameLine<'_>],
    front: &str,
    n: u64,
) -> Result<String, AllocError>
    ensures { IfOk result (λ text.
        string_bytes text ≡ spec.name_or_number (map name_of names.now) front.now n) }
{
    let name = text_of_number(alloc, names, n)?;
    if name.len() < 1 {
        return format!(in alloc; "{front}{n}");
    }
    Ok(name)
}

// Returns the first name of an activity or an order, or else its id, or else its number.
#[tactic(auto, unfolding(crate::specs::Parts::name_or_id))]
fn name_or_id(alloc: Global, names: &EventNames<'_>, n: u64) -> Result<String, AllocError>
    ensures { IfOk result (λ text.
        string_bytes text ≡ spec.name_or_id (spec.event_names_of names.now) n) }
{
    let name = text_of_number(alloc, names.names, n)?;
    if name.len() < 1 {
        return name_or_number(alloc, names.ids, "", n);
    }
    Ok(name)
}

// Appends the resource at an index of a row of amounts, if some of it is needed.
fn push_part_at(parts: &mut Vec<Part>, row: &[u64], k: usize) -> Result<(), AllocError>
    requires { k < length row.now }
    ensures { OnOk result (parts.new.items ≡ parts.old.items ++ spec.part_at row.now k) }
{
    let amount = row[k];
    if amount > 0 {
        let number = k as u64 + 1;
        parts.push(Part { number, amount })?;
    }
    Ok(())
}

// Returns the resources of which a row of amounts needs some.
fn row_parts(alloc: Global, row: &[u64]) -> Result<Vec<Part>, AllocError>
    ensures { IfOk result (λ parts. parts.items ≡ spec.row_parts row.now) }
{
    let mut parts = Vec::new(alloc);
    for k in 0..row.len() {
        push_part_at(&mut parts, row, k)?;
    }
    Ok(parts)
}

// Returns the row of an activity, or an empty one if there is none.
#[tactic(auto, using(crate::proofs::PartLemmas::row_there, crate::proofs::PartLemmas::row_absent))]
fn row_at<'a>(needs: &'a [&'a [u64]], number: u32) -> &'a [u64]
    ensures { result.now ≡ spec.row_or_empty
        (slice_get (map (λ row. row.now) needs.now) (number - 1)) }
{
    match needs.get(number.saturating_sub(1) as usize) {
        Some(&row) => row,
        None => &[],
    }
}

/// Returns the resources that an activity needs, or the machine of a step. Row `k` of `needs` has
/// the amounts of activity `k + 1`.
#[tactic(auto, unfolding(crate::specs::Parts::parts_of))]
pub(crate) fn parts_of(alloc: Global, needs: &[&[u64]], bar: Bar) -> Result<Vec<Part>, AllocError>
    ensures { IfOk result (λ parts.
        parts.items ≡ spec.parts_of (map (λ row. row.now) needs.now) bar) }
{
    if bar.step < 1 {
        return row_parts(alloc, row_at(needs, bar.number));
    }
    let mut parts = Vec::new(alloc);
    parts.push(Part {
        number: u64::from(bar.machine),
        amount: 0,
    })?;
    Ok(parts)
}

// Returns the name of a resource or a machine of a bar.
fn part_name(
    alloc: Global,
    resources: &[NameLine<'_>],
    bar: Bar,
    part: Part,
) -> Result<String, AllocError>
    ensures { IfOk result (λ text.
        string_bytes text ≡ spec.part_name (map name_of resources.now) bar part) }
{
    let front = if bar.step < 1 { "R" } else { "machine " };
    name_or_number(alloc, resources, front, part.number)
}

// Appends an amount behind a space, or nothing for a machine.
fn push_amount(text: &mut String, amount: u64) -> Result<(), AllocError>
    ensures { OnOk result
        (string_bytes text.new ≡ string_bytes text.old ++ spec.amount_note amount) }
{
    if amount < 1 {
        return Ok(());
    }
    write!(text, " {amount}")
}

// Returns the name of a resource with its amount.
fn part_text(
    alloc: Global,
    resources: &[NameLine<'_>],
    bar: Bar,
    part: Part,
) -> Result<String, AllocError>
    ensures { IfOk result (λ text.
        string_bytes text ≡ spec.part_text (map name_of resources.now) bar part) }
{
    let mut text = part_name(alloc, resources, bar, part)?;
    push_amount(&mut text, part.amount)?;
    Ok(text)
}

// Appends an entry to a list, behind a comma if it isn't the first one.
#[tactic(auto, unfolding(crate::specs::Parts::listed))]
fn push_listed(list: &mut String, entry: &str) -> Result<(), AllocError>
    ensures { OnOk result (string_bytes list.new ≡ spec.listed (string_bytes list.old) entry.now) }
{
    if list.len() < 1 {
        return list.push_str(entry);
    }
    list.push_str(", ")?;
    list.push_str(entry)
}

// Returns the list of resources with their amounts.
fn parts_list(
    alloc: Global,
    resources: &[NameLine<'_>],
    bar: Bar,
    parts: &[Part],
) -> Result<String, AllocError>
    ensures { IfOk result (λ list.
        string_bytes list ≡ spec.parts_list (map name_of resources.now) bar parts.now) }
{
    let mut list = String::new(alloc);
    for &part in parts {
        let entry = part_text(alloc, resources, bar, part)?;
        push_listed(&mut list, &entry)?;
    }
    Ok(list)
}

// Appends a list in parentheses, or nothing if it is empty.
fn push_in_parentheses(text: &mut String, list: &str) -> Result<(), AllocError>
    ensures { OnOk result
        (string_bytes text.new ≡ string_bytes text.old ++ spec.in_parentheses list.now) }
{
    if list.len() < 1 {
        return Ok(());
    }
    text.push_str(" (")?;
    text.push_str(list)?;
    text.push_str(")")
}

// Returns the name of an event, the step, and its resources or its machine.
#[tactic(auto, unfolding(crate::specs::Parts::summary_of))]
fn summary_of(
    alloc: Global,
    names: &EventNames<'_>,
    bar: Bar,
    parts: &[Part],
) -> Result<String, AllocError>
    ensures { IfOk result (λ text. string_bytes text
        ≡ spec.summary_of (spec.event_names_of names.now) bar parts.now) }
{
    let mut text = name_or_id(alloc, names, u64::from(bar.number))?;
    push_step_part(&mut text, bar.step)?;
    let list = parts_list(alloc, names.resources, bar, parts)?;
    push_in_parentheses(&mut text, &list)?;
    Ok(text)
}

/// Returns the name of an event: with its resources or its machine, or else the title of its bar.
pub(crate) fn event_name(
    alloc: Global,
    with_parts: bool,
    names: &EventNames<'_>,
    bar: Bar,
    parts: &[Part],
) -> Result<String, AllocError>
    ensures { IfOk result (λ text. string_bytes text
        ≡ spec.event_name with_parts (spec.event_names_of names.now) bar parts.now) }
{
    if with_parts {
        summary_of(alloc, names, bar, parts)
    } else {
        title_of(alloc, &[], names.names, bar)
    }
}

// Tests whether one of the resources, or the machine, has the name.
fn is_part_named(
    alloc: Global,
    resources: &[NameLine<'_>],
    bar: Bar,
    name: &str,
    parts: &[Part],
) -> Result<bool, AllocError>
    ensures { IfOk result (λ is. is
        ≡ spec.is_part_named (map name_of resources.now) bar name.now parts.now) }
{
    let mut is_named = false;
    for &part in parts {
        let own = part_name(alloc, resources, bar, part)?;
        is_named = is_named || own.as_str() == name;
    }
    Ok(is_named)
}

// Tests whether the order of a step has the name.
fn is_order_named(
    alloc: Global,
    names: &EventNames<'_>,
    bar: Bar,
    name: &str,
) -> Result<bool, AllocError>
    ensures { IfOk result (λ is. is
        ≡ spec.is_order_named (spec.event_names_of names.now) bar name.now) }
{
    if bar.step < 1 {
        return Ok(false);
    }
    let own = name_or_id(alloc, names, u64::from(bar.number))?;
    Ok(own.as_str() == name)
}

/// Tests whether the event of a bar is wanted: there is no choice, or the name is that of one of
/// its resources, of its machine or of its order.
pub(crate) fn is_wanted(
    alloc: Global,
    only: Option<&str>,
    names: &EventNames<'_>,
    bar: Bar,
    parts: &[Part],
) -> Result<bool, AllocError>
    ensures { IfOk result (λ is. is ≡ spec.is_wanted (option_map (λ name. name.now) only.entry)
        (spec.event_names_of names.now) bar parts.now) }
{
    let Some(name) = only else {
        return Ok(true);
    };
    if is_part_named(alloc, names.resources, bar, name, parts)? {
        return Ok(true);
    }
    is_order_named(alloc, names, bar, name)
}
