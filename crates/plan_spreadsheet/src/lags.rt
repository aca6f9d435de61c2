//! Lags: the time between the end of a predecessor and the start of an activity.

ghost use Rattle.std.specs.Prelude.{◌≡◌, map};
ghost use Rattle.std.specs.List.{list_any};
ghost use Rattle.plan_psplib.specs.Numbers as numbers;
ghost use Rattle.plan_table.specs.Cells as cells;
ghost use Rattle.plan_table.specs.Durations as durations;
ghost use Rattle.plan_spreadsheet.specs.Lags as spec;

use plan_psplib::number;
use plan_table::same_name;

/// Words for days in English, German, French and Spanish.
const DAY_WORDS: [&[u8]; 9] = [
    b"d",
    b"day",
    b"days",
    b"tag",
    b"tage",
    b"jour",
    b"jours",
    b"d\xc3\xada",
    b"d\xc3\xadas",
];

// Whether a text is among words, without regard to ASCII case.
fn is_word(words: &[&[u8]], text: &[u8]) -> bool
    ensures { result ≡ list_any (λ word. cells.same_name word text.now)
        (map (λ word. word.now) words.now) }
{
    for &word in words {
        if same_name(word, text) {
            return true;
        }
    }
    false
}

/// Whether a text is a word for days, or empty.
pub fn is_unit(text: &[u8]) -> bool
    ensures { result ≡ durations.is_unit text.now }
{
    text.is_empty() || is_word(&DAY_WORDS, text)
}

/// Whether a byte is a digit.
pub fn is_digit(byte: u8) -> bool
    ensures { result ≡ numbers.is_digit byte }
{
    byte >= 48 && byte <= 57
}

/// Returns the place behind the digits at the front of a text, if something follows them.
pub fn digits_end(text: &[u8]) -> Option<usize>
    ensures { result ≡ durations.digits_end text.now }
{
    text.iter().position(|&byte| !is_digit(byte))
}

// Whether a number is at most that of a duration.
fn is_short(number: Option<u64>) -> bool
    ensures { result ≡ spec.is_short number }
{
    match number {
        Some(n) => n <= 10_000,
        None => false,
    }
}

/// Whether a text is a lag: a number, perhaps with a word for days directly behind it.
pub fn is_lag(text: &[u8]) -> bool
    ensures { result ≡ spec.is_lag text.now }
{
    match digits_end(text) {
        Some(end) => is_unit(&text[end..]) && is_short(number(&text[..end])),
        None => is_short(number(text)),
    }
}
