//! The cells of an activity.

ghost use Rattle.std.specs.Prelude.{◌≡◌, ◌≤◌, ℕ, List, Option, nat_le, IfOk, string_bytes};
ghost use Rattle.std.specs.Char.{is_control};
ghost use Rattle.std.specs.List.{list_all, list_any};
ghost use Rattle.std.specs.Str.{chars};
ghost use Rattle.plan_table.specs.Cells as spec;
ghost use Rattle.plan_table.specs.Csv.{Row};
ghost use Rattle.plan_table.specs.Header.{Head};
ghost use Rattle.plan_table.specs.Entries.{Entries};
ghost use Rattle.plan_table.specs.Table.{Activity, Resource, Table};
ghost use Rattle.plan_table.specs.Limits as limits;
ghost use Rattle.plan_table.specs.Predecessors.{Label};
ghost use Rattle.plan_table.specs.Reading.{Fails, Gives, fault};

use crate::fault::{ReadError, TableCode, TableFault};
use plan_psplib::{GREATEST_AMOUNT, number};
use std::alloc::Global;
use std::str;

/// The most bytes of a name.
const LONGEST_NAME: usize = 200;

/// A fault that names a word.
pub fn word_fault(alloc: Global, code: TableCode, line: u64, word: &[u8]) -> ReadError
    ensures number { Fails result (fault {A = ℕ} code line word.now) }
    ensures list { Fails result (fault {A = List ℕ} code line word.now) }
    ensures unit { Fails result (fault {A = Unit {0}} code line word.now) }
    ensures head { Fails result (fault {A = Head} code line word.now) }
    ensures heads { Fails result (fault {A = List Head} code line word.now) }
    ensures activity { Fails result (fault {A = Activity} code line word.now) }
    ensures table { Fails result (fault {A = Table} code line word.now) }
    ensures resources { Fails result (fault {A = List Resource} code line word.now) }
    ensures rows { Fails result (fault {A = List Row} code line word.now) }
    ensures entries { Fails result (fault {A = Entries} code line word.now) }
    ensures ids { Fails result (fault {A = List (List ℕ)} code line word.now) }
    ensures labels { Fails result (fault {A = List Label} code line word.now) }
    ensures capacities { Fails result (fault {A = List (Option ℕ)} code line word.now) }
{
    match Vec::from_slice(alloc, word) {
        Ok(word) => ReadError::Fault(TableFault { code, line, word }),
        Err(_) => ReadError::Memory,
    }
}

/// Whether two texts are the same.
pub fn same(a: &[u8], b: &[u8]) -> bool
    ensures { result ≡ spec.same a.now b.now }
{
    a.len() == b.len() && a.starts_with(b)
}

/// Whether two texts are the same without regard to ASCII case.
#[tactic(auto, unfolding(crate::specs::Cells::same_name))]
pub fn same_name(a: &[u8], b: &[u8]) -> bool
    ensures { result ≡ spec.same_name a.now b.now }
{
    a.eq_ignore_ascii_case(b)
}

/// The amount in a cell.
#[tactic(auto, unfolding(crate::specs::Cells::amount))]
pub fn amount(
    alloc: Global,
    code: TableCode,
    line: u64,
    word: &[u8],
    cell: &[u8],
) -> Result<u32, ReadError>
    ensures exact { Gives (λ n. n) result (spec.amount code line word.now cell.now) }
    ensures fits { IfOk result (λ n. n ≤ 10000) }
{
    match number(cell) {
        None => Err(word_fault(alloc, code, line, word)),
        Some(n) if n > GREATEST_AMOUNT => Err(word_fault(alloc, TableCode::Limit, line, b"")),
        Some(n) => Ok(n as u32),
    }
}

// Whether no byte is a control character.
fn is_plain(name: &[u8]) -> bool
    ensures { result ≡ list_all (λ byte. nat_le 32 byte) name.now }
{
    name.iter().all(|&byte| byte >= 32)
}

// Whether a text has a control character.
fn has_control(text: &str) -> bool
    ensures { result ≡ list_any is_control (chars text.now) }
{
    text.chars().any(|c| c.is_control())
}

/// Whether a text is UTF-8 and has no control character.
#[tactic(auto, using(crate::proofs::ReadLemmas::not_text, crate::proofs::ReadLemmas::is_text))]
pub fn is_printable(text: &[u8]) -> bool
    ensures { result ≡ limits.is_printable text.now }
{
    match str::from_utf8(text) {
        Ok(text) => !has_control(text),
        Err(_) => false,
    }
}

/// The name in a cell.
#[tactic(auto, unfolding(crate::specs::Cells::name), using(crate::proofs::ReadLemmas::not_text, crate::proofs::ReadLemmas::is_text))]
pub fn name(alloc: Global, line: u64, cell: &[u8]) -> Result<String, ReadError>
    ensures { Gives string_bytes result (spec.name line cell.now) }
{
    if cell.len() > LONGEST_NAME {
        return Err(word_fault(alloc, TableCode::Limit, line, b""));
    }
    if !is_plain(cell) {
        return Err(word_fault(alloc, TableCode::NotText, line, b""));
    }
    match str::from_utf8(cell) {
        Ok(text) if is_printable(cell) => Ok(String::from_str(alloc, text)?),
        _ => Err(word_fault(alloc, TableCode::NotText, line, b"")),
    }
}
