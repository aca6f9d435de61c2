//! The choice of the copies of a folder that a backup removes.

ghost use Rattle.std.specs.Prelude.{◌≡◌, ◌+◌, ◌≤◌, IfSome, IfNone, IsOk, Contains, true, map, filter, length, All, Decides, false, IfOk, IfErr};
ghost use Rattle.std.specs.Prelude.{string_bytes, OnOk, ◌++◌, ◌∷◌, []};
ghost use Rattle.plan_copies.specs.Choice.{count_between, form_of, is_before, is_copy_name};
ghost use Rattle.plan_copies.specs.Choice.{is_earlier, is_expired, is_later, IsLate};

use std::alloc::Global;

// The end of the name of a copy, with 0 for each digit.
const FORM: &[u8] = b"00000000T000000Z.db";

/// The error of a choice.
#[derive(Drop)]
pub enum ChoiceFault {
    /// There isn't enough memory.
    Memory,
    /// The copy with this name is later than the new one.
    Later(String),
}

// Returns a byte with the digit 0 in the place of each digit.
fn form_of(byte: u8) -> u8
    ensures { result ≡ form_of byte }
{
    if byte.is_ascii_digit() { b'0' } else { byte }
}

// Returns whether these bytes are a time and an ending, such as `20260301T030512Z.db`.
fn is_time(bytes: &[u8]) -> bool
    ensures { Decides result (map form_of bytes.now ≡ FORM.now) }
{
    if bytes.len() != FORM.len() {
        return false;
    }
    for (i, &byte) in bytes.iter().enumerate() {
        if form_of(byte) != FORM[i] {
            return false;
        }
    }
    true
}

// Returns whether a name is that of a copy.
fn is_copy(prefix: &str, name: &str) -> bool
    ensures { result ≡ is_copy_name prefix.now name.now }
{
    match name.as_bytes().strip_prefix(prefix.as_bytes()) {
        Some(time) => is_time(time),
        None => false,
    }
}

// Returns whether a name is before another one in the order of bytes.
fn is_before(name: &str, other: &str) -> bool
    ensures { result ≡ is_before name.now other.now }
{
    name < other
}

// Returns the number of copies later than a name and earlier than the new one.
fn count_between(names: &[String], prefix: &str, new: &str, name: &str) -> usize
    ensures value { result ≡ count_between prefix.now new.now (map string_bytes names.now) name.now }
    ensures bound { result ≤ length names.now }
{
    let mut count = 0;
    for entry in names {
        let other = entry.as_str();
        if is_copy(prefix, other) && is_before(other, new) && is_before(name, other) {
            count += 1;
        }
    }
    count
}

// Returns whether a name is that of a copy later than the new one.
fn is_later(prefix: &str, new: &str, name: &str) -> bool
    ensures { result ≡ is_later prefix.now new.now name.now }
{
    is_copy(prefix, name) && is_before(new, name)
}

// Returns the name of a copy that is later than the new one.
fn later_of<'a>(names: &'a [String], prefix: &str, new: &str) -> Option<&'a str>
    ensures some { IfSome result (λ name. Contains (map string_bytes names.now) name.now
        × (is_later prefix.now new.now name.now ≡ true)) }
    ensures none { IfNone result
        (All (λ name. is_later prefix.now new.now name ≡ false) (map string_bytes names.now)) }
{
    for entry in names {
        let name = entry.as_str();
        if is_later(prefix, new, name) {
            return Some(name);
        }
    }
    None
}

// Returns whether a name is that of an earlier copy, and at least `keep` copies are later, the new
// one counted.
fn is_expired(names: &[String], prefix: &str, new: &str, keep: usize, name: &str) -> bool
    ensures { result ≡ is_expired prefix.now new.now keep (map string_bytes names.now) name.now }
{
    is_copy(prefix, name)
        && is_before(name, new)
        && count_between(names, prefix, new, name) + 1 >= keep
}

// Adds a name to a list.
fn add(alloc: Global, list: &mut Vec<String>, name: &str) -> Result<(), ChoiceFault>
    ensures ok { OnOk result (map string_bytes list.new.items
        ≡ map string_bytes list.old.items ++ name.now ∷ []) }
    ensures failed { IfErr result (λ e. e ≡ ChoiceFault.Memory) }
{
    let Ok(name) = name.to_string(alloc) else {
        return Err(ChoiceFault::Memory);
    };
    list.push(name).map_err(|_| ChoiceFault::Memory)
}

/// Returns the names of the copies that a backup removes: all but the latest `keep` of those whose
/// names begin with this prefix, the new one counted.
pub fn expired(
    alloc: Global,
    names: &[String],
    prefix: &str,
    new: &str,
    keep: usize,
) -> Result<Vec<String>, ChoiceFault>
    ensures chosen { IfOk result (λ old. map string_bytes old.items
        ≡ filter (is_expired prefix.now new.now keep (map string_bytes names.now))
        (map string_bytes names.now)) }
    ensures spares { IfOk result (λ old. Contains (map string_bytes old.items) new.now → ⊥) }
    ensures timely { IsOk result →
        All (λ name. is_later prefix.now new.now name ≡ false) (map string_bytes names.now) }
    ensures refused { IfErr result (IsLate prefix.now new.now (map string_bytes names.now)) }
{
    if let Some(name) = later_of(names, prefix, new) {
        return match name.to_string(alloc) {
            Ok(name) => Err(ChoiceFault::Later(name)),
            Err(_) => Err(ChoiceFault::Memory),
        };
    }
    let mut old = Vec::new(alloc);
    for entry in names {
        let name = entry.as_str();
        if is_expired(names, prefix, new, keep, name) {
            add(alloc, &mut old, name)?;
        }
    }
    Ok(old)
}
