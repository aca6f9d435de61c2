//! Characters of texts.

ghost use Rattle.std.specs.Prelude.{◌≡◌};
ghost use Rattle.plan_formats.specs.Columns as spec;

// Whether a byte begins a character.
fn begins(byte: u8) -> bool
    ensures { result ≡ spec.begins byte }
{
    !(128 <= byte && byte < 192)
}

/// Returns the number of characters of a text in UTF-8; of other bytes those that can begin one.
pub fn characters(text: &[u8]) -> usize
    ensures { result ≡ spec.characters text.now }
{
    let mut count = 0;
    for byte in text {
        if begins(*byte) {
            count += 1;
        }
    }
    count
}
