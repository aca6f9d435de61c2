//! The marks of the weekdays, from their text.

ghost use Rattle.std.specs.Prelude.{◌≡◌, ℕ, ◌<◌, length, slice_index, IfSome, IfNone, false, EachIndex, SomeIndex};
ghost use Rattle.std.specs.Bool.{OnTrue};
ghost use Rattle.plan_calendar.specs.CalendarText.{IsMarkDigit, IsMarksText, HasNoMarks};

// Tests whether each byte is `0` or `1`.
fn are_mark_digits(bytes: &[u8]) -> bool
    ensures all { OnTrue result (EachIndex bytes.now (λ k. IsMarkDigit (slice_index bytes.now k))) }
    ensures other { result ≡ false → SomeIndex bytes.now (λ k.
        IsMarkDigit (slice_index bytes.now k) → ⊥) }
{
    for k in 0..bytes.len() {
        if bytes[k] != b'0' {
            if bytes[k] != b'1' {
                return false;
            }
        }
    }
    true
}

// Parses the marks of the weekdays: seven bytes `0` or `1`, Monday first, at least one of them `1`.
pub fn week_marks(text: &str) -> Option<[bool; 7]>
    ensures some { IfSome result (IsMarksText text.now) }
    ensures none { IfNone result (HasNoMarks text.now) }
{
    let bytes = text.as_bytes();
    if bytes.len() != 7 {
        return None;
    }
    if !are_mark_digits(bytes) {
        return None;
    }
    if !bytes.contains(&b'1') {
        return None;
    }
    Some([
        bytes[0] == b'1',
        bytes[1] == b'1',
        bytes[2] == b'1',
        bytes[3] == b'1',
        bytes[4] == b'1',
        bytes[5] == b'1',
        bytes[6] == b'1',
    ])
}
