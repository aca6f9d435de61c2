//! The length of a body: numbers of any number of digits.

ghost use Rattle.std.specs.Prelude.{◌≡◌, ◌≤◌, true, All, MatchOption, length, min, nat_eq};
ghost use Rattle.std.specs.List.{list_all};
ghost use Rattle.std.specs.Char.{is_ascii_digit as is_digit};
ghost use Rattle.std.specs.Str.Parse.{digits_value};
ghost use Rattle.httparse.specs.Spans.{IsHeaderWithin};
ghost use Rattle.plan_http.specs.Fields as spec;
ghost use Rattle.plan_http.specs.Fields.{fields_in};
ghost use Rattle.plan_http.specs.Lengths.{IsCappedLength, spells, is_zero};

use crate::fields::{first_value, is_named};
use httparse::spans::HeaderSpan;

/// The greatest number of bytes of a body.
pub(crate) const LONGEST_BODY: u32 = 1_048_576;

fn are_digits(text: &[u8]) -> bool
    ensures { result ≡ list_all is_digit text.now }
{
    text.iter().all(|byte| byte.is_ascii_digit())
}

fn are_zeros(text: &[u8]) -> bool
    ensures { result ≡ list_all is_zero text.now }
{
    text.iter().all(|byte| *byte == b'0')
}

// One or more digits.
fn is_length_text(text: &[u8]) -> bool
    ensures { result ≡ spec.is_length_text text.now }
{
    !text.is_empty() && are_digits(text)
}

// Whether a number equals another one with at most as many digits.
#[tactic(auto, using(crate::proofs::DigitLemmas::shorter_is))]
fn is_shorter_number(long: &[u8], short: &[u8]) -> bool
    requires longer { length short.now ≤ length long.now }
    requires long { list_all is_digit long.now ≡ true }
    requires short { list_all is_digit short.now ≡ true }
    ensures { result ≡ nat_eq (digits_value 10 long.now) (digits_value 10 short.now) }
{
    let (zeros, rest) = long.split_at(long.len() - short.len());
    are_zeros(zeros) && rest == short
}

// Whether two numbers are equal.
fn is_same_number(a: &[u8], b: &[u8]) -> bool
    requires a { list_all is_digit a.now ≡ true }
    requires b { list_all is_digit b.now ≡ true }
    ensures { result ≡ nat_eq (digits_value 10 a.now) (digits_value 10 b.now) }
{
    if a.len() < b.len() {
        return is_shorter_number(b, a);
    }
    is_shorter_number(a, b)
}

// The value of a number, capped at one more than the longest body.
fn capped_value(text: &[u8]) -> u32
    requires { list_all is_digit text.now ≡ true }
    ensures { result ≡ min (digits_value 10 text.now) 1048577 }
{
    let mut value: u32 = 0;
    for byte in text {
        let digit = (*byte - b'0') as u32;
        value = (value * 10 + digit).min(LONGEST_BODY + 1);
    }
    value
}

// Whether a text is a number that equals another one.
fn is_spelled(number: &[u8], text: &[u8]) -> bool
    requires { list_all is_digit number.now ≡ true }
    ensures { result ≡ spells (digits_value 10 number.now) text.now }
{
    is_length_text(text) && is_same_number(text, number)
}

// Whether all fields of this name have equal numbers.
#[tactic(auto, using(crate::proofs::FieldLemmas::fails_at, crate::proofs::FieldLemmas::passes_at, crate::proofs::FieldLemmas::past_at, crate::proofs::FieldLemmas::none_at))]
fn all_agree(front: &[u8], headers: &[HeaderSpan], name: &str, number: &[u8]) -> bool
    requires within { All (IsHeaderWithin (length front.now)) headers.now }
    requires digits { list_all is_digit number.now ≡ true }
    ensures { result ≡ list_all (spells (digits_value 10 number.now))
        (spec.values_of name.now (fields_in front.now headers.now)) }
{
    for header in headers {
        if is_named(front, header, name) && !is_spelled(number, header.value.of(front)) {
            return false;
        }
    }
    true
}

/// Returns the length that the fields of this name give, capped at one more than the longest body.
/// Returns None if a value isn't a number or two values differ.
pub(crate) fn length_in(front: &[u8], headers: &[HeaderSpan], name: &str) -> Option<u32>
    requires { All (IsHeaderWithin (length front.now)) headers.now }
    ensures { MatchOption result
        (spec.is_length_wrong (spec.values_of name.now (fields_in front.now headers.now)) ≡ true)
        (λ n. IsCappedLength (spec.values_of name.now (fields_in front.now headers.now)) n) }
{
    let Some(first) = first_value(front, headers, name) else {
        return Some(0);
    };
    if !is_length_text(first) {
        return None;
    }
    if !all_agree(front, headers, name, first) {
        return None;
    }
    Some(capped_value(first))
}
