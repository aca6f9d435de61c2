//! The text of bytes in UTF-16.

ghost use Rattle.std.specs.Prelude.{◌≡◌, IfOk, encode_utf8_all};
ghost use Rattle.std.specs.String.{string_bytes};
ghost use Rattle.plan_encoding.specs.Utf16.{unit_of, units_of, utf16_text};

use std::alloc::{AllocError, Global};

/// The order of the two bytes of a unit.
#[derive(Clone, Copy, Drop)]
pub enum ByteOrder {
    /// The low byte comes first.
    Little,
    /// The high byte comes first.
    Big,
}

// Returns the unit that two bytes spell.
fn unit(order: ByteOrder, first: u8, second: u8) -> u16
    ensures { result ≡ unit_of order first second }
{
    match order {
        ByteOrder::Little => second as u16 * 256 + first as u16,
        ByteOrder::Big => first as u16 * 256 + second as u16,
    }
}

// Returns the units of the bytes. An odd last byte belongs to none.
fn units(alloc: Global, order: ByteOrder, bytes: &[u8]) -> Result<Vec<u16>, AllocError>
    ensures { IfOk result (λ units. units.items ≡ units_of order bytes.now) }
{
    let mut units = Vec::with_capacity(alloc, bytes.len() / 2)?;
    for i in 0..bytes.len() / 2 {
        units.push(unit(order, bytes[i * 2], bytes[i * 2 + 1]))?;
    }
    Ok(units)
}

/// Returns the text of bytes in UTF-16 without a byte-order mark.
pub fn decode_utf16(alloc: Global, order: ByteOrder, bytes: &[u8]) -> Result<String, AllocError>
    ensures { IfOk result (λ text.
        string_bytes text ≡ encode_utf8_all (utf16_text order bytes.now)) }
{
    let units = units(alloc, order, bytes)?;
    let mut text = String::from_utf16_lossy(alloc, &units)?;
    if bytes.len() % 2 == 1 {
        text.push('\u{FFFD}')?;
    }
    Ok(text)
}
