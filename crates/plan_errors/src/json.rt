//! Errors as JSON.

ghost use Rattle.std.specs.Prelude.{◌≡◌, map, IfOk, OnOk, codes, fold};
ghost use Rattle.serde_json.specs.View.{view, items_view, members_view};
ghost use Rattle.plan_formats.specs.JsonText.{IsLineOf, json_text_of};
ghost use Rattle.plan_psplib.specs.Lines.{words};
ghost use Rattle.plan_errors.specs.ErrorData as spec;

use crate::context::{About, Context};
use crate::fault::CliFault;
use crate::hints::advice;
use crate::parts::Part;
use plan_formats::value_line;
use plan_psplib::{Words, number};
use serde_json::{Map, Value, put};
use std::alloc::{AllocError, Global};

// Returns numbers as values.
fn number_values(alloc: Global, numbers: &[u32]) -> Result<Vec<Value>, AllocError>
    ensures { IfOk result (λ list. items_view list.items ≡ spec.items_of_numbers numbers.now) }
{
    let mut list = Vec::new(alloc);
    for &n in numbers {
        list.push(Value::from(n as u64))?;
    }
    Ok(list)
}

// Returns the numbers in front of the first word of a text that isn't a number.
fn front_numbers(alloc: Global, text: &[u8]) -> Result<Vec<Value>, AllocError>
    ensures { IfOk result (λ list.
        items_view list.items ≡ spec.items_of_numbers (spec.front_numbers (words text.now))) }
{
    let mut list = Vec::new(alloc);
    let mut left = Words::new(text);
    while let Some(word) = left.next_word() {
        let Some(n) = number(word) else {
            return Ok(list);
        };
        list.push(Value::from(n))?;
    }
    Ok(list)
}

// Sets a member to numbers, if there are any.
fn put_numbers(
    alloc: Global,
    object: &mut Map<String, Value>,
    key: &str,
    numbers: &[u32],
) -> Result<(), AllocError>
    ensures { OnOk result (members_view object.new.entries
        ≡ spec.with_numbers key.now numbers.now (members_view object.old.entries)) }
{
    let values = number_values(alloc, numbers)?;
    if values.is_empty() {
        return Ok(());
    }
    put(object, alloc, key, Value::Array(values))?;
    Ok(())
}

// Sets the member `cycle` to the ids in front that are numbers, if there are any.
fn put_ids(alloc: Global, object: &mut Map<String, Value>, ids: &str) -> Result<(), AllocError>
    ensures { OnOk result (members_view object.new.entries ≡ spec.with_numbers (codes "cycle")
        (spec.front_numbers (words ids.now)) (members_view object.old.entries)) }
{
    let values = front_numbers(alloc, ids.as_bytes())?;
    if values.is_empty() {
        return Ok(());
    }
    put(object, alloc, "cycle", Value::Array(values))?;
    Ok(())
}

// Sets the members of a part.
fn put_part(alloc: Global, object: &mut Map<String, Value>, part: &Part) -> Result<(), AllocError>
    ensures { OnOk result (members_view object.new.entries
        ≡ spec.with_part (members_view object.old.entries) part.now) }
{
    match part {
        Part::Words(_) | Part::Text(_) => {}
        Part::Number(key, n) | Part::Bare(key, n) => put(
            object,
            alloc,
            key.word(),
            Value::from(*n),
        )?,
        Part::Numbers(key, numbers) => put_numbers(alloc, object, key.word(), numbers)?,
        Part::Ids(ids) => put_ids(alloc, object, ids.as_str())?,
    }
    Ok(())
}

// Sets the members of parts.
fn put_parts(
    alloc: Global,
    object: &mut Map<String, Value>,
    parts: &[Part],
) -> Result<(), AllocError>
    ensures { OnOk result (members_view object.new.entries
        ≡ fold spec.with_part (members_view object.old.entries) parts.now) }
{
    for part in parts {
        put_part(alloc, object, part)?;
    }
    Ok(())
}

// Sets the members of the parts of an error.
fn put_fault(
    alloc: Global,
    object: &mut Map<String, Value>,
    fault: &CliFault,
) -> Result<(), AllocError>
    ensures { OnOk result (members_view object.new.entries
        ≡ spec.with_parts fault.now (members_view object.old.entries)) }
{
    if let CliFault::Refused(refusal) = fault {
        put_parts(alloc, object, &refusal.parts)?;
    }
    Ok(())
}

// Returns the key of an argument.
fn argument_key(about: About) -> &'static str
    ensures { result.now ≡ spec.argument_key about }
{
    if about.is_file() { "file" } else { "argument" }
}

// Sets the member of the argument that an error is about, if there is one.
fn put_argument(
    alloc: Global,
    object: &mut Map<String, Value>,
    about: About,
    argument: Option<&str>,
) -> Result<(), AllocError>
    ensures { OnOk result (members_view object.new.entries
        ≡ spec.with_argument about argument.entry (members_view object.old.entries)) }
{
    if let Some(argument) = argument {
        let value = Value::try_from_str(alloc, argument)?;
        put(object, alloc, argument_key(about), value)?;
    }
    Ok(())
}

// Sets the members `text` and `hint`.
fn put_texts(
    alloc: Global,
    object: &mut Map<String, Value>,
    context: Context<'_>,
    fault: &CliFault,
) -> Result<(), AllocError>
    ensures { OnOk result (members_view object.new.entries
        ≡ spec.with_texts context.entry fault.now (members_view object.old.entries)) }
{
    put(object, alloc, "text", Value::String(fault.line(alloc)?))?;
    put(
        object,
        alloc,
        "hint",
        Value::String(advice(alloc, context, fault)?),
    )
}

// Sets all members but the code.
fn put_members(
    alloc: Global,
    object: &mut Map<String, Value>,
    context: Context<'_>,
    fault: &CliFault,
) -> Result<(), AllocError>
    ensures { OnOk result (members_view object.new.entries
        ≡ spec.with_members context.entry fault.now (members_view object.old.entries)) }
{
    let about = fault.subject();
    put_fault(alloc, object, fault)?;
    put_argument(alloc, object, about, context.argument(about))?;
    put_texts(alloc, object, context, fault)
}

// Returns an error of a command with these arguments as an object.
fn error_value(alloc: Global, context: Context<'_>, fault: &CliFault) -> Result<Value, AllocError>
    ensures { IfOk result (λ value. view value ≡ spec.error_data context.entry fault.now) }
{
    let mut object = Map::new(alloc);
    let code = Value::try_from_str(alloc, fault.code().name())?;
    put(&mut object, alloc, "code", code)?;
    put_members(alloc, &mut object, context, fault)?;
    Ok(Value::Object(object))
}

/// Returns an error of a command with these arguments as a line of JSON: an object with its `code`,
/// its line as `text`, and the numbers of its parts under the names of their keys. `file` is the
/// file that it is about, as on the command line, `argument` another argument that it is about.
/// `hint` has the hint without the word `hint`.
pub fn error_json(
    alloc: Global,
    context: Context<'_>,
    fault: &CliFault,
) -> Result<Vec<u8>, AllocError>
    ensures text { IfOk result (λ text.
        text.items ≡ json_text_of (spec.error_data context.entry fault.now)) }
    ensures reads { IfOk result (λ text.
        IsLineOf text.items (spec.error_data context.entry fault.now)) }
{
    let value = error_value(alloc, context, fault)?;
    value_line(alloc, &value)
}
