//! Numbers of a text.

ghost use Rattle.std.specs.Prelude.{◌≡◌, ◌≤◌, ◌<◌, true, false, length, take, slice_index};
ghost use Rattle.std.specs.List.{list_all};
ghost use Rattle.plan_psplib.specs.Numbers as spec;

/// The greatest length of a number, in digits.
const LONGEST_NUMBER: usize = 9;

/// Returns the number that a word spells: one to nine decimal digits, leading zeros allowed.
#[tactic(auto, using(crate::proofs::NumberLemmas::number_none, crate::proofs::NumberLemmas::number_some))]
pub fn number(word: &[u8]) -> Option<u64>
    ensures { result ≡ spec.number word.now }
{
    let (count, value) = leading_digits(word);
    if count == 0 || count < word.len() {
        return None;
    }
    Some(value)
}

/// Tests whether a word is a number.
pub fn is_number(word: &[u8]) -> bool
    ensures { result ≡ spec.is_number word.now }
{
    !word.is_empty() && word.len() <= LONGEST_NUMBER && all_digits(word)
}

// Whether each byte is a decimal digit.
fn all_digits(word: &[u8]) -> bool
    ensures { result ≡ list_all spec.is_digit word.now }
{
    word.iter().all(|byte| byte.is_ascii_digit())
}

/// Returns the number of digits at the front of a text, at most nine, and their value.
pub fn leading_digits(text: &[u8]) -> (usize, u64)
    ensures short { result.0 ≤ 9 }
    ensures within { result.0 ≤ length text.now }
    ensures digits { list_all spec.is_digit (take result.0 text.now) ≡ true }
    ensures value { result.1 ≡ spec.decimal (take result.0 text.now) }
    ensures most { result.0 < 9 → result.0 < length text.now →
        spec.is_digit (slice_index text.now result.0) ≡ false }
{
    let most = text.len().min(LONGEST_NUMBER);
    let mut value = 0;
    for count in 0..most {
        let byte = text[count];
        if !byte.is_ascii_digit() {
            return (count, value);
        }
        value = value * 10 + u64::from(byte - b'0');
    }
    (most, value)
}
