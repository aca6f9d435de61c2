//! `plan explain`: the meaning of a code and its remedy.

ghost use Rattle.std.specs.Prelude.{◌≡◌, ◌++◌, ◌⊎◌, ◌+◌, ◌≤◌, IfErr, IfOk, IsErrOf, OnOk, codes, drop};
ghost use Rattle.std.specs.Prelude.{string_bytes};
ghost use Rattle.plan_io.specs.Devices.{most_calls};
ghost use Rattle.plan_errors.specs.Codes.{ended, entry_of};
ghost use Rattle.plan_errors.specs.Output.{HasSinkFailed, Refuses, Writes};
ghost use Rattle.plan_errors.specs.ExplainRun as spec;
ghost use Rattle.plan_errors.specs.ExplainRun.{CarriesCode, Explains, IsCodeOf, StartsWithCode};
ghost use Rattle.plan_errors.specs.ExplainRun.{TellsNoCode};

use crate::bytes::write_text;
use crate::codes::Code;
use crate::context::About;
use crate::fault::CliFault;
use crate::refusal::refuse_words;
use plan_io::Sink;
use plan_psplib::Words;
use std::alloc::{AllocError, Global};
use std::fmt::Write;
use std::str::from_utf8;

// Returns the code with this name.
#[tactic(auto, using(crate::proofs::CodeLemmas::no_name))]
fn code_of(name: &[u8]) -> Option<Code>
    ensures { IsCodeOf name.now result }
{
    match from_utf8(name) {
        Ok(name) => Code::parse(name),
        Err(_) => None,
    }
}

// Returns the code that the next token names.
fn next_code(tokens: &mut Words<'_>) -> Option<Code>
    ensures code { StartsWithCode tokens.old result }
    ensures rest { tokens.new ≡ drop 1 tokens.old }
{
    let name = tokens.next_word()?;
    code_of(name)
}

// Returns the code of the error that a line carries behind its own code.
fn carried_code(code: Code, mut tokens: Words<'_>) -> Option<Code>
    ensures { CarriesCode code tokens.entry result }
{
    if !code.carries_error() {
        return None;
    }
    next_code(&mut tokens)
}

// Appends a text with its end of line.
fn push_ended(text: &mut String, line: &str) -> Result<(), AllocError>
    ensures { OnOk result (string_bytes text.new ≡ string_bytes text.old ++ ended line.now) }
{
    writeln!(text, "{line}")
}

// Appends the entry of a code.
fn push_entry(text: &mut String, code: Code) -> Result<(), AllocError>
    ensures { OnOk result (string_bytes text.new ≡ string_bytes text.old ++ entry_of code) }
{
    push_ended(text, code.form())?;
    push_ended(text, code.meaning())?;
    push_ended(text, code.remedy())
}

// Returns the entry of a code.
fn entry(alloc: Global, code: Code) -> Result<String, AllocError>
    ensures { IfOk result (λ text. string_bytes text ≡ entry_of code) }
{
    let mut text = String::new(alloc);
    push_entry(&mut text, code)?;
    Ok(text)
}

// Returns the entry of a code and that of the code that its line carries.
fn explanation(alloc: Global, code: Code, carried: Option<Code>) -> Result<String, AllocError>
    ensures { IfOk result (λ text. string_bytes text ≡ spec.explanation code carried) }
{
    let mut text = entry(alloc, code)?;
    if let Some(carried) = carried {
        text.push_str("\n")?;
        push_entry(&mut text, carried)?;
    }
    Ok(text)
}

// Returns the error of a line that starts with no code.
fn no_code(alloc: Global) -> CliFault
    ensures { Refuses (λ line. line ≡ codes "C1 unknown code") result }
{
    refuse_words(alloc, Code::UnknownCode, About::Other, "unknown code")
}

/// Returns the code that starts an error line, in capitals or not, and the code of the error that
/// the line carries. Any other text is refused with `C1`.
pub fn explained(alloc: Global, line: &str) -> Result<(Code, Option<Code>), CliFault>
    ensures codes { IfOk result (λ found.
        spec.NamesCodes (spec.tokens_of line.now) found.0 found.1) }
    ensures refused { IfErr result (Refuses (TellsNoCode line.now)) }
{
    let line = line.to_ascii_uppercase(alloc)?;
    let mut tokens = Words::new(line.as_bytes());
    let Some(code) = next_code(&mut tokens) else {
        return Err(no_code(alloc));
    };
    Ok((code, carried_code(code, tokens)))
}

/// Returns the text that explains an error line: the entry of the code that starts it, in capitals
/// or not, and the entry of the error that it carries. Any other text is refused with `C1`.
pub fn explanation_text(alloc: Global, line: &str) -> Result<String, CliFault>
    ensures text { IfOk result (λ text. Explains line.now (string_bytes text)) }
    ensures refused { IfErr result (Refuses (TellsNoCode line.now)) }
{
    let (code, carried) = explained(alloc, line)?;
    Ok(explanation(alloc, code, carried)?)
}

/// Writes the entry of the code that starts an error line such as `F9 line 31`, in capitals or not.
/// An entry has the form of the line, the meaning and the remedy, each on its own line. If the line
/// carries another error, such as `E10 F9 line 31`, an empty line and the entry of that one follow.
/// Any other text is refused with `C1`, and nothing is written. A call of the writer that fails
/// isn't repeated.
#[tactic(auto, using(crate::proofs::OutputLemmas::sent_writes))]
pub fn explain_run<W: Sink>(alloc: Global, line: &str, writer: &mut W) -> Result<(), CliFault>
    ensures writes { W.calls writer.new ≤ W.calls writer.old + most_calls }
    // The explanation if there is one, else nothing; a part of it if the output fails.
    ensures text { Writes (Explains line.now) (TellsNoCode line.now)
        (W.taken writer.old) (W.taken writer.new) result }
    // With any other error than that of the output, nothing is written.
    ensures quiet { IfErr result (λ e. (e ≡ CliFault.Output) ⊎ (writer.new ≡ writer.old)) }
    ensures fine { OnOk result (W.faults writer.new ≡ W.faults writer.old) }
    ensures output { IsErrOf result CliFault.Output → HasSinkFailed W.Sink writer.old writer.new }
{
    let text = explanation_text(alloc, line)?;
    write_text(writer, text.as_bytes())
}
