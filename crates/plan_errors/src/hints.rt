//! The hint that follows an error on a terminal.

ghost use Rattle.std.specs.Prelude.{◌≡◌, ◌++◌, IfOk, OnOk, codes, string_bytes};
ghost use Rattle.plan_errors.specs.Codes.{name_of};
ghost use Rattle.plan_errors.specs.Subjects.{cause_in};
ghost use Rattle.plan_errors.specs.HintText as spec;

use crate::codes::Code;
use crate::context::{About, Context, cause_in};
use crate::fault::CliFault;
use crate::refusal::Refusal;
use std::alloc::{AllocError, Global};

// Whether a terminal could obey a character.
fn is_control(c: char) -> bool
    ensures { result ≡ spec.is_control c }
{
    c < ' ' || ('\u{7f}'..='\u{9f}').contains(&c)
}

// Appends a character, or a question mark for a control character.
#[tactic(auto, unfolding(crate::specs::HintText::masked_char))]
fn push_masked(text: &mut String, c: char) -> Result<(), AllocError>
    ensures { OnOk result (string_bytes text.new ≡ string_bytes text.old ++ spec.masked_char c) }
{
    text.push(if is_control(c) { '?' } else { c })
}

/// Returns a text with question marks in place of its control characters.
pub fn masked(alloc: Global, text: &str) -> Result<String, AllocError>
    ensures text { IfOk result (λ shown. string_bytes shown ≡ spec.masked text.now) }
{
    let mut shown = String::new(alloc);
    for c in text.chars() {
        push_masked(&mut shown, c)?;
    }
    Ok(shown)
}

// Appends a text with question marks in place of its control characters.
fn push_shown(alloc: Global, text: &mut String, shown: &str) -> Result<(), AllocError>
    ensures { OnOk result
        (string_bytes text.new ≡ string_bytes text.old ++ spec.masked shown.now) }
{
    let shown = masked(alloc, shown)?;
    text.push_str(shown.as_str())
}

// Appends the argument that an error is about and a colon, if there is one.
fn push_argument(
    alloc: Global,
    text: &mut String,
    about: About,
    argument: Option<&str>,
) -> Result<(), AllocError>
    ensures { OnOk result (string_bytes text.new
        ≡ string_bytes text.old ++ spec.named about argument.entry) }
{
    if let Some(argument) = argument {
        push_shown(alloc, text, about.shown(argument))?;
        text.push_str(": ")?;
    }
    Ok(())
}

// Appends the command that explains a code.
fn push_command(text: &mut String, code: Code) -> Result<(), AllocError>
    ensures { OnOk result (string_bytes text.new
        ≡ string_bytes text.old ++ codes "; see: plan explain " ++ name_of code) }
{
    text.push_str("; see: plan explain ")?;
    text.push_str(code.name())
}

// Appends the cause of a refusal.
fn push_detail(alloc: Global, text: &mut String, refusal: &Refusal) -> Result<(), AllocError>
    ensures { OnOk result (string_bytes text.new ≡ string_bytes text.old
        ++ spec.cause_or refusal.now.detail
        (cause_in refusal.now.contents refusal.now.about refusal.now.code)) }
{
    match &refusal.detail {
        Some(detail) => push_shown(alloc, text, detail.as_str()),
        None => text.push_str(cause_in(refusal.contents, refusal.about, refusal.code)),
    }
}

// Appends the cause of an error.
fn push_cause(alloc: Global, text: &mut String, fault: &CliFault) -> Result<(), AllocError>
    ensures { OnOk result (string_bytes text.new
        ≡ string_bytes text.old ++ spec.cause_shown fault.now) }
{
    match fault {
        CliFault::Refused(refusal) => push_detail(alloc, text, refusal),
        CliFault::Memory => text.push_str(Code::NoMemory.cause()),
        CliFault::Input(_) => text.push_str(Code::Input.cause()),
        CliFault::Output => text.push_str(Code::Output.cause()),
    }
}

// Appends the advice on an error.
fn push_advice(
    alloc: Global,
    text: &mut String,
    context: Context<'_>,
    fault: &CliFault,
) -> Result<(), AllocError>
    ensures { OnOk result (string_bytes text.new
        ≡ string_bytes text.old ++ spec.advice_of context.entry fault.now) }
{
    let about = fault.subject();
    push_argument(alloc, text, about, context.argument(about))?;
    push_cause(alloc, text, fault)?;
    push_command(text, fault.code())
}

/// Returns the advice on an error: its hint without the word `hint`.
pub(crate) fn advice(
    alloc: Global,
    context: Context<'_>,
    fault: &CliFault,
) -> Result<String, AllocError>
    ensures { IfOk result (λ text. string_bytes text ≡ spec.advice_of context.entry fault.now) }
{
    let mut text = String::new(alloc);
    push_advice(alloc, &mut text, context, fault)?;
    Ok(text)
}

/// Returns the hint for an error, such as
/// `hint: house.sm: job numbers out of order; see: plan explain F7` for `F7 line 21`. A hint has
/// the argument that the error is about, if the command has one, the cause, and the command that
/// explains the code.
pub fn hint(alloc: Global, context: Context<'_>, fault: &CliFault) -> Result<String, AllocError>
    ensures { IfOk result (λ text. string_bytes text ≡ spec.hint_of context.entry fault.now) }
{
    let mut text = "hint: ".to_string(alloc)?;
    push_advice(alloc, &mut text, context, fault)?;
    Ok(text)
}

/// Returns the hint for an error with this code about an argument.
pub fn code_hint(
    alloc: Global,
    about: About,
    argument: Option<&str>,
    code: Code,
) -> Result<String, AllocError>
    ensures { IfOk result (λ text.
        string_bytes text ≡ spec.code_hint_of about argument.entry code) }
{
    let mut text = "hint: ".to_string(alloc)?;
    push_argument(alloc, &mut text, about, argument)?;
    text.push_str(code.cause())?;
    push_command(&mut text, code)?;
    Ok(text)
}
