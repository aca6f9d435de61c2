//! The encoding of a text, from its bytes.

ghost use Rattle.std.specs.Prelude.{◌≡◌, ◌↔◌, IsTrue, IsUtf8};
ghost use Rattle.std.specs.Str.{is_utf8};
ghost use Rattle.plan_encoding.specs.Encodings.{encoding};

/// The encodings in which spreadsheets save a text.
#[derive(Clone, Copy, Debug, PartialEq, Eq, Drop)]
pub enum Encoding {
    /// UTF-8, with or without a byte-order mark.
    Utf8,
    /// UTF-16 after the byte-order mark FF FE: the low byte of a unit comes first.
    Utf16Le,
    /// UTF-16 after the byte-order mark FE FF: the high byte of a unit comes first.
    Utf16Be,
    /// Windows-1252, of Western Europe and the Americas.
    Windows1252,
}

// Tests whether the bytes are a text in UTF-8.
fn is_valid(bytes: &[u8]) -> bool
    ensures value { result ≡ is_utf8 bytes.now }
    ensures valid { IsTrue result ↔ IsUtf8 bytes.now }
{
    match str::from_utf8(bytes) {
        Ok(_) => true,
        Err(_) => false,
    }
}

/// Returns the encoding of the bytes. No text in UTF-8 begins with a byte-order mark of UTF-16, so
/// valid UTF-8 is never taken for anything else.
#[tactic(auto, unfolding(crate::specs::Encodings::encoding))]
pub fn encoding_of(bytes: &[u8]) -> Encoding
    ensures value { result ≡ encoding bytes.now }
    ensures utf8 { (result ≡ Encoding.Utf8) ↔ IsUtf8 bytes.now }
{
    if is_valid(bytes) {
        Encoding::Utf8
    } else if bytes.starts_with(&[0xFF, 0xFE]) {
        Encoding::Utf16Le
    } else if bytes.starts_with(&[0xFE, 0xFF]) {
        Encoding::Utf16Be
    } else {
        Encoding::Windows1252
    }
}
