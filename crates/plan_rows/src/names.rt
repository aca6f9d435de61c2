//! The names of desks and codes, keys, and the numbers of plans.

ghost use Rattle.std.specs.Prelude.{◌≡◌, option_map};
ghost use Rattle.std.specs.List.{list_all};
ghost use Rattle.plan_rows.specs.Names as spec;
ghost use Rattle.plan_rows.specs.Plans as plans;

use plan_psplib::number;
use sha2::{Digest, Sha256};

// The most bytes of the name of a desk or of a code.
const LONGEST_NAME: usize = 32;

// The least and the most bytes of a key.
const SHORTEST_KEY: usize = 8;

const LONGEST_KEY: usize = 64;

// The most digits of a plan's number.
const LONGEST_NUMBER: usize = 7;

// Returns whether a byte is `a` to `z`, `0` to `9` or `-`.
fn is_name_byte(byte: u8) -> bool
    ensures { result ≡ spec.is_name_byte byte }
{
    matches!(byte, b'a'..=b'z' | b'0'..=b'9' | b'-')
}

fn are_name_bytes(text: &[u8]) -> bool
    ensures { result ≡ list_all spec.is_name_byte text.now }
{
    text.iter().all(|byte| is_name_byte(*byte))
}

fn begins_with(byte: u8, text: &[u8]) -> bool
    ensures { result ≡ spec.begins_with byte text.now }
{
    match text.first() {
        Some(first) => *first == byte,
        None => false,
    }
}

/// Returns whether a text is a valid name of a desk or a valid code: 1–32 characters `a` to `z`,
/// `0` to `9` and `-`, the first of which isn't `-`.
pub fn is_name(text: &[u8]) -> bool
    ensures { result ≡ spec.is_name text.now }
{
    !text.is_empty()
        && text.len() <= LONGEST_NAME
        && are_name_bytes(text)
        && !begins_with(b'-', text)
}

fn are_printed(text: &[u8]) -> bool
    ensures { result ≡ list_all (spec.is_from_to 33 126) text.now }
{
    text.iter().all(|byte| (33..=126).contains(byte))
}

/// Returns whether a text is a valid key: 8–64 printable ASCII characters without blanks.
pub fn is_key(text: &[u8]) -> bool
    ensures { result ≡ spec.is_key text.now }
{
    text.len() >= SHORTEST_KEY && text.len() <= LONGEST_KEY && are_printed(text)
}

/// Returns the SHA-256 of a key, or `None` if the text isn't a valid key. It needs no memory.
pub fn key_digest(text: &[u8]) -> Option<[u8; 32]>
    ensures { result ≡ spec.key_digest_of text.now }
{
    if is_key(text) {
        Some(Sha256::digest(text))
    } else {
        None
    }
}

/// Returns whether a key was sent that has this digest.
pub fn has_key(key: Option<&[u8]>, digest: &[u8; 32]) -> bool
    ensures { result ≡ spec.has_key (option_map (λ k. k.now) key.entry) digest.now }
{
    match key {
        Some(text) => match key_digest(text) {
            Some(own) => own == *digest,
            None => false,
        },
        None => false,
    }
}

/// Parses the number of a plan: 1–7 digits without a leading zero.
pub fn plan_number(text: &[u8]) -> Option<u64>
    ensures { result ≡ plans.plan_number text.now }
{
    if text.is_empty() || text.len() > LONGEST_NUMBER || begins_with(b'0', text) {
        return None;
    }
    number(text)
}
