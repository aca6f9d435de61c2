//! The text of a file in UTF-8.

ghost use Rattle.std.specs.Prelude.{◌≡◌, ◌↔◌, IfOk, IfSome, IsUtf8, IsNone, encode_utf8_all};
ghost use Rattle.std.specs.String.{string_bytes};
ghost use Rattle.plan_encoding.specs.Encodings.{ReadsUtf16, chars_in, encoding, utf8_of};
ghost use Rattle.plan_encoding.specs.Texts.{text_in};

use crate::encoding::{Encoding, encoding_of};
use crate::marks::rest;
use crate::utf16::{ByteOrder, decode_utf16};
use crate::windows_1252::decode_windows_1252;
use std::alloc::{AllocError, Global};

/// The encoding of a file, and its text.
#[derive(Drop)]
pub struct Decoded {
    pub encoding: Encoding,
    /// The text in UTF-8; `None` if the file is in UTF-8 itself.
    pub text: Option<Vec<u8>>,
}

impl Decoded {
    /// Returns the text in UTF-8. `bytes` are those of the file.
    pub fn utf8<'a>(&'a self, bytes: &'a [u8]) -> &'a [u8]
        ensures { result.now ≡ text_in self.now bytes.now }
    {
        match &self.text {
            Some(text) => text,
            None => bytes,
        }
    }
}

// Returns the text of a file, unless it is in UTF-8.
#[tactic(auto, unfolding(crate::specs::Encodings::chars_in))]
fn decode(alloc: Global, encoding: Encoding, bytes: &[u8]) -> Result<Option<String>, AllocError>
    ensures none { IfOk result (λ text. IsNone text ↔ (encoding ≡ Encoding.Utf8)) }
    ensures value { IfOk result (λ text. IfSome text (λ text.
        string_bytes text ≡ encode_utf8_all (chars_in encoding bytes.now))) }
{
    let unmarked = rest(bytes, 2);
    match encoding {
        Encoding::Utf8 => Ok(None),
        Encoding::Utf16Le => Ok(Some(decode_utf16(alloc, ByteOrder::Little, unmarked)?)),
        Encoding::Utf16Be => Ok(Some(decode_utf16(alloc, ByteOrder::Big, unmarked)?)),
        Encoding::Windows1252 => Ok(Some(decode_windows_1252(alloc, bytes)?)),
    }
}

/// Decodes a file. A text in UTF-8 isn't copied.
pub fn utf8_text(alloc: Global, bytes: &[u8]) -> Result<Decoded, AllocError>
    ensures encoding { IfOk result (λ decoded. decoded.encoding ≡ encoding bytes.now) }
    ensures text { IfOk result (λ decoded. text_in decoded bytes.now ≡ utf8_of bytes.now) }
    ensures unchanged { IfOk result (λ decoded. IsNone decoded.text ↔ IsUtf8 bytes.now) }
    ensures valid { IfOk result (λ decoded. IsUtf8 (text_in decoded bytes.now)) }
    ensures utf16 { IfOk result (λ decoded. ReadsUtf16 bytes.now (text_in decoded bytes.now)) }
{
    let encoding = encoding_of(bytes);
    match decode(alloc, encoding, bytes)? {
        None => Ok(Decoded {
            encoding,
            text: None,
        }),
        Some(text) => Ok(Decoded {
            encoding,
            text: Some(text.into_bytes()),
        }),
    }
}
