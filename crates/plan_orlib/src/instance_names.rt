//! The names of all instances of a text.

ghost use Rattle.std.specs.Prelude.{◌≡◌, ◌⊎◌, Ok, Err, IfOk, IfErr, MatchResult, map};
ghost use Rattle.std.specs.List.{filter_map};
ghost use Rattle.plan_psplib.specs.Plain.{plain};
ghost use Rattle.plan_psplib.specs.Faults.{IsWantOfMemory, TellsError};
ghost use Rattle.plan_psplib.specs.declared.text.fault.Fault.{Fault};
ghost use Rattle.plan_psplib.specs.declared.text.fault.ReadError.TheVariants as errors;
ghost use Rattle.plan_psplib.specs.Lines.{lines};
ghost use Rattle.plan_psplib.specs.Tokens.{Gives};
ghost use Rattle.plan_orlib.specs.Instances as spec;
ghost use Rattle.plan_orlib.specs.ShopText as reading;

use crate::instances::{instance_name, is_bare};
use plan_psplib::{FileFault, Lines, ReadError, check_text};
use std::alloc::{AllocError, Global};

/// Returns the names of all instances of a text, in order and with duplicates. The one instance of
/// the bare form is named `-`. The only errors are `TooLong` (F1, line 0), `NotText` (F2) and out
/// of memory.
///
/// The format is that of `jobshop1` (J. E. Beasley, "OR-Library: distributing test problems by
/// electronic mail", Journal of the Operational Research Society 41, 1990).
pub fn names(alloc: Global, text: &[u8]) -> Result<Vec<Vec<u8>>, FileFault>
    // The result is the list of names, and the text is short enough and has no zero byte.
    ensures found { IfOk result (λ names. (plain text.now ≡ Ok tt) ×
        (map (λ name. name.items) names.items ≡ spec.names_of text.now)) }
    // For such a text the only error is out of memory.
    ensures only { plain text.now ≡ Ok tt → IfErr result IsWantOfMemory }
    // The error is out of memory, or the first check that fails.
    ensures refused { IfErr result (λ fault. IsWantOfMemory fault ⊎ reading.FailsWith
        (plain text.now) fault) }
    // The error of a text that is too long or has a zero byte is returned even if memory runs out.
    ensures early { (f : Fault) → plain text.now ≡ Err f →
        MatchResult result (λ _. ⊥) (TellsError (errors.Fault f)) }
{
    checked_names(alloc, text).map_err(|error| FileFault::of(alloc, error))
}

// Returns the names of a text, or the first check that fails.
#[tactic(auto, unfolding(crate::specs::ShopText::names))]
fn checked_names(alloc: Global, text: &[u8]) -> Result<Vec<Vec<u8>>, ReadError>
    ensures exact { Gives (λ names. map (λ name. name.items) names.items) result
        (reading.names text.now) }
    ensures early { (f : Fault) → plain text.now ≡ Err f →
        MatchResult result (λ _. ⊥) (λ e. e ≡ errors.Fault f) }
{
    check_text(text)?;
    Ok(all_names(alloc, text)?)
}

// The names of a text in either form.
fn all_names(alloc: Global, text: &[u8]) -> Result<Vec<Vec<u8>>, AllocError>
    ensures { IfOk result (λ names. map (λ name. name.items) names.items ≡ spec.names_of text.now) }
{
    if is_bare(text) {
        let mut names = Vec::new(alloc);
        names.push(b"-".to_vec(alloc)?)?;
        return Ok(names);
    }
    block_names(alloc, text)
}

// The names on the instance lines of a text.
fn block_names(alloc: Global, text: &[u8]) -> Result<Vec<Vec<u8>>, AllocError>
    ensures { IfOk result (λ names. map (λ name. name.items) names.items ≡ filter_map
        (λ line. spec.instance_name line.text) (lines text.now)) }
{
    let mut names = Vec::new(alloc);
    let mut lines = Lines::new(text);
    while let Some(line) = lines.next_line() {
        if let Some(name) = instance_name(line.text) {
            names.push(name.to_vec(alloc)?)?;
        }
    }
    Ok(names)
}
