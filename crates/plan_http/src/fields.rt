//! The fields of a head, by their names.

ghost use Rattle.std.specs.Prelude.{◌≡◌, ◌∷◌, [], List, ℕ, All, MatchOption, option_map, length};
ghost use Rattle.httparse.specs.Spans.{IsHeaderWithin, header_bytes};
ghost use Rattle.plan_http.specs.Fields.{fields_in, has_name, values_of, only_of};

use httparse::spans::HeaderSpan;

// Whether a field has this name, in upper or lower case.
pub(crate) fn is_named(front: &[u8], header: &HeaderSpan, name: &str) -> bool
    requires { IsHeaderWithin (length front.now) header.now }
    ensures { result ≡ has_name name.now (header_bytes front.now header.now) }
{
    name.as_bytes().eq_ignore_ascii_case(header.name.of(front))
}

// The number of fields with this name.
#[tactic(auto, using(crate::proofs::FieldLemmas::here_at, crate::proofs::FieldLemmas::past_at, crate::proofs::FieldLemmas::none_at))]
pub(crate) fn count_of(front: &[u8], headers: &[HeaderSpan], name: &str) -> usize
    requires { All (IsHeaderWithin (length front.now)) headers.now }
    ensures { result ≡ length (values_of name.now (fields_in front.now headers.now)) }
{
    let mut count = 0;
    for header in headers {
        if is_named(front, header, name) {
            count += 1;
        }
    }
    count
}

// The value of the first field with this name.
#[tactic(auto, using(crate::proofs::FieldLemmas::here_at, crate::proofs::FieldLemmas::past_at, crate::proofs::FieldLemmas::none_at))]
pub(crate) fn first_value<'a>(
    front: &'a [u8],
    headers: &[HeaderSpan],
    name: &str,
) -> Option<&'a [u8]>
    requires { All (IsHeaderWithin (length front.now)) headers.now }
    ensures { MatchOption result
        (values_of name.now (fields_in front.now headers.now) ≡ [])
        (λ value. (others : List (List ℕ))
        × (values_of name.now (fields_in front.now headers.now) ≡ value.now ∷ others)) }
{
    for header in headers {
        if is_named(front, header, name) {
            return Some(header.value.of(front));
        }
    }
    None
}

// The value of the field with this name, if there is exactly one.
pub(crate) fn only_value<'a>(
    front: &'a [u8],
    headers: &[HeaderSpan],
    name: &str,
) -> Option<&'a [u8]>
    requires { All (IsHeaderWithin (length front.now)) headers.now }
    ensures { option_map (λ value. value.now) result
        ≡ only_of (values_of name.now (fields_in front.now headers.now)) }
{
    if count_of(front, headers, name) > 1 {
        return None;
    }
    first_value(front, headers, name)
}
