//! The text of bytes in Windows-1252.

ghost use Rattle.std.specs.Prelude.{◌≡◌, map, IfOk, encode_utf8_all};
ghost use Rattle.std.specs.String.{string_bytes};
ghost use Rattle.plan_encoding.specs.Windows1252.{windows_1252_char};

use std::alloc::{AllocError, Global};

// The characters of the bytes 0x80 to 0x9F.
const HIGH: [char; 32] = [
    '\u{20AC}', '\u{81}', '\u{201A}', '\u{192}', '\u{201E}', '\u{2026}', '\u{2020}', '\u{2021}',
    '\u{2C6}', '\u{2030}', '\u{160}', '\u{2039}', '\u{152}', '\u{8D}', '\u{17D}', '\u{8F}',
    '\u{90}', '\u{2018}', '\u{2019}', '\u{201C}', '\u{201D}', '\u{2022}', '\u{2013}', '\u{2014}',
    '\u{2DC}', '\u{2122}', '\u{161}', '\u{203A}', '\u{153}', '\u{9D}', '\u{17E}', '\u{178}',
];

// Returns the character of a byte.
fn char_of(byte: u8) -> char
    ensures { result ≡ windows_1252_char byte }
{
    match byte {
        0x80..=0x9F => HIGH[(byte - 0x80) as usize],
        _ => byte as char,
    }
}

/// Returns the text of bytes in Windows-1252.
pub fn decode_windows_1252(alloc: Global, bytes: &[u8]) -> Result<String, AllocError>
    ensures { IfOk result (λ text.
        string_bytes text ≡ encode_utf8_all (map windows_1252_char bytes.now)) }
{
    let mut text = String::with_capacity(alloc, bytes.len())?;
    for &byte in bytes {
        text.push(char_of(byte))?;
    }
    Ok(text)
}
