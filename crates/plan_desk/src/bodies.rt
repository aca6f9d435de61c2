//! The JSON bodies of requests.

ghost use Rattle.std.specs.Prelude.{◌≡◌, ◌≤◌, IfOk, IfSome, option_map, string_bytes, codes};
ghost use Rattle.plan_rows.specs.Plans as plans;
ghost use Rattle.serde_json.specs.View.{view};
ghost use Rattle.plan_desk.specs.Bodies as spec;
ghost use Rattle.plan_rows.specs.Names as names;
ghost use Rattle.plan_desk.specs.BodyViews.{publish_in, desk_body_in, bind_body_in};
ghost use Rattle.plan_desk.specs.BodyViews.{calendar_in, lag_body_in};

use plan_net::{LONGEST_LAG, MOST_ACTIVITIES};
use plan_psplib::GREATEST_AMOUNT;
use plan_rows::{Kind, PlanKind, is_key, is_name};
use serde_json::Value;
use std::alloc::{AllocError, Global};

// A code, its kind, and its capacity.
#[derive(Drop)]
pub(crate) struct PublishBody {
    pub code: String,
    pub kind: Kind,
    pub capacity: u64,
}

// The name of a desk, and the key that it gets.
#[derive(Drop)]
pub(crate) struct DeskBody {
    pub desk: String,
    pub key: String,
}

// A published code, and the place that the code is bound to: a resource from 1 on, or a machine
// from 0 on.
#[derive(Drop)]
pub(crate) struct BindBody {
    pub code: String,
    pub place: u64,
}

// A start date and the marks of seven days, Monday first, as texts. They are checked later.
#[derive(Drop)]
pub(crate) struct CalendarBody {
    pub start: String,
    pub days: String,
}

// The two activities of an arc, numbered from 1, and its lag in time units.
#[derive(Clone, Copy, Drop)]
pub(crate) struct LagBody {
    pub from: u32,
    pub to: u32,
    pub lag: u64,
}

// Returns the value of a JSON body, or None if the body isn't JSON.
fn json(alloc: Global, body: &[u8]) -> Result<Option<Value>, AllocError>
    ensures { IfOk result (λ value. option_map view value ≡ spec.json body.now) }
{
    match Value::from_slice(alloc, body) {
        Ok(value) => Ok(Some(value)),
        Err(error) => {
            if error.is_memory() {
                Err(AllocError)
            } else {
                Ok(None)
            }
        }
    }
}

// The member of this name, if it is a text.
fn text_in<'v>(name: &str, value: &'v Value) -> Option<&'v str>
    ensures { option_map (λ s. s.now) result
        ≡ spec.text_in spec.any_text name.now (view value.now) }
{
    value.get(name).and_then(Value::as_str)
}

// The member of this name, if it can be the name of a desk or a code.
fn name_in<'v>(name: &str, value: &'v Value) -> Option<&'v str>
    ensures { option_map (λ s. s.now) result
        ≡ spec.text_in names.is_name name.now (view value.now) }
{
    text_in(name, value).filter(|text| is_name(text.as_bytes()))
}

// The member of this name, if it can be a key.
fn key_in<'v>(name: &str, value: &'v Value) -> Option<&'v str>
    ensures { option_map (λ s. s.now) result
        ≡ spec.text_in names.is_key name.now (view value.now) }
{
    text_in(name, value).filter(|text| is_key(text.as_bytes()))
}

// The member of this name, if it is a whole number from `least` to `most`.
fn number_in(name: &str, least: u64, most: u64, value: &Value) -> Option<u64>
    ensures value { result
        ≡ spec.number_in (names.is_from_to least most) name.now (view value.now) }
    ensures most { IfSome result (λ n. n ≤ most) }
{
    value
        .get(name)
        .and_then(Value::as_u64)
        .filter(|n| (least..=most).contains(n))
}

fn kind_named(text: &str) -> Option<Kind>
    ensures { result ≡ spec.kind_named text.now }
{
    Kind::of_word(text.as_bytes())
}

fn publish_members(alloc: Global, value: &Value) -> Result<Option<PublishBody>, AllocError>
    ensures { IfOk result (λ b. option_map publish_in b
        ≡ spec.publish_members (view value.now)) }
{
    let Some(code) = name_in("code", value) else {
        return Ok(None);
    };
    let Some(kind) = text_in("kind", value).and_then(kind_named) else {
        return Ok(None);
    };
    let Some(capacity) = number_in("capacity", 0, GREATEST_AMOUNT, value) else {
        return Ok(None);
    };
    Ok(Some(PublishBody {
        code: String::from_str(alloc, code)?,
        kind,
        capacity,
    }))
}

// Parses a body that publishes a code.
#[tactic(auto, unfolding(crate::specs::Bodies::publish_body))]
pub(crate) fn publish_body(alloc: Global, body: &[u8]) -> Result<Option<PublishBody>, AllocError>
    ensures { IfOk result (λ b. option_map publish_in b ≡ spec.publish_body body.now) }
{
    match json(alloc, body)? {
        Some(value) => publish_members(alloc, &value),
        None => Ok(None),
    }
}

fn desk_members(alloc: Global, value: &Value) -> Result<Option<DeskBody>, AllocError>
    ensures { IfOk result (λ b. option_map desk_body_in b ≡ spec.desk_members (view value.now)) }
{
    let Some(desk) = name_in("desk", value) else {
        return Ok(None);
    };
    let Some(key) = key_in("key", value) else {
        return Ok(None);
    };
    Ok(Some(DeskBody {
        desk: String::from_str(alloc, desk)?,
        key: String::from_str(alloc, key)?,
    }))
}

// Parses a body that opens a desk.
#[tactic(auto, unfolding(crate::specs::Bodies::desk_body))]
pub(crate) fn desk_body(alloc: Global, body: &[u8]) -> Result<Option<DeskBody>, AllocError>
    ensures { IfOk result (λ b. option_map desk_body_in b ≡ spec.desk_body body.now) }
{
    match json(alloc, body)? {
        Some(value) => desk_members(alloc, &value),
        None => Ok(None),
    }
}

fn key_member(alloc: Global, value: &Value) -> Result<Option<String>, AllocError>
    ensures { IfOk result (λ key. option_map string_bytes key
        ≡ spec.text_in names.is_key (codes "key") (view value.now)) }
{
    match key_in("key", value) {
        Some(key) => Ok(Some(String::from_str(alloc, key)?)),
        None => Ok(None),
    }
}

// Parses a body that sets a key.
#[tactic(auto, unfolding(crate::specs::Bodies::key_body))]
pub(crate) fn key_body(alloc: Global, body: &[u8]) -> Result<Option<String>, AllocError>
    ensures { IfOk result (λ key. option_map string_bytes key ≡ spec.key_body body.now) }
{
    match json(alloc, body)? {
        Some(value) => key_member(alloc, &value),
        None => Ok(None),
    }
}

// Whether a plan with `count` places has this place.
fn is_place(kind: PlanKind, count: u64, place: u64) -> bool
    ensures { result ≡ plans.is_place kind count place }
{
    match kind {
        PlanKind::Project => place >= 1 && place <= count,
        PlanKind::Shop => place < count,
    }
}

fn place_in(kind: PlanKind, count: u64, value: &Value) -> Option<u64>
    ensures { result
        ≡ spec.number_in (plans.is_place kind count) (codes "place") (view value.now) }
{
    value
        .get("place")
        .and_then(Value::as_u64)
        .filter(|place| is_place(kind, count, *place))
}

fn bind_members(
    alloc: Global,
    kind: PlanKind,
    count: u64,
    value: &Value,
) -> Result<Option<BindBody>, AllocError>
    ensures { IfOk result (λ b. option_map bind_body_in b
        ≡ spec.bind_members (plans.is_place kind count) (view value.now)) }
{
    let Some(code) = name_in("code", value) else {
        return Ok(None);
    };
    let Some(place) = place_in(kind, count, value) else {
        return Ok(None);
    };
    Ok(Some(BindBody {
        code: String::from_str(alloc, code)?,
        place,
    }))
}

// Parses a body that binds a code to a place of a plan with `count` places.
#[tactic(auto, unfolding(crate::specs::Bodies::bind_body))]
pub(crate) fn bind_body(
    alloc: Global,
    kind: PlanKind,
    count: u64,
    body: &[u8],
) -> Result<Option<BindBody>, AllocError>
    ensures { IfOk result (λ b. option_map bind_body_in b
        ≡ spec.bind_body (plans.is_place kind count) body.now) }
{
    match json(alloc, body)? {
        Some(value) => bind_members(alloc, kind, count, &value),
        None => Ok(None),
    }
}

fn calendar_members(alloc: Global, value: &Value) -> Result<Option<CalendarBody>, AllocError>
    ensures { IfOk result (λ b. option_map calendar_in b
        ≡ spec.calendar_members (view value.now)) }
{
    let Some(start) = text_in("start", value) else {
        return Ok(None);
    };
    let Some(days) = text_in("days", value) else {
        return Ok(None);
    };
    Ok(Some(CalendarBody {
        start: String::from_str(alloc, start)?,
        days: String::from_str(alloc, days)?,
    }))
}

// Parses a body that sets a calendar.
#[tactic(auto, unfolding(crate::specs::Bodies::calendar_body))]
pub(crate) fn calendar_body(alloc: Global, body: &[u8]) -> Result<Option<CalendarBody>, AllocError>
    ensures { IfOk result (λ b. option_map calendar_in b ≡ spec.calendar_body body.now) }
{
    match json(alloc, body)? {
        Some(value) => calendar_members(alloc, &value),
        None => Ok(None),
    }
}

fn lag_members(value: &Value) -> Option<LagBody>
    ensures { option_map lag_body_in result ≡ spec.lag_members (view value.now) }
{
    let from = number_in("from", 1, MOST_ACTIVITIES as u64, value)?;
    let to = number_in("to", 1, MOST_ACTIVITIES as u64, value)?;
    let lag = number_in("lag", 0, LONGEST_LAG, value)?;
    Some(LagBody {
        from: from as u32,
        to: to as u32,
        lag,
    })
}

// Parses a body that sets a lag.
#[tactic(auto, unfolding(crate::specs::Bodies::lag_body))]
pub(crate) fn lag_body(alloc: Global, body: &[u8]) -> Result<Option<LagBody>, AllocError>
    ensures { IfOk result (λ b. option_map lag_body_in b ≡ spec.lag_body body.now) }
{
    match json(alloc, body)? {
        Some(value) => Ok(lag_members(&value)),
        None => Ok(None),
    }
}
