//! The size of a request.

ghost use Rattle.std.specs.Prelude.{◌≡◌, ℕ, ◌+◌, ◌<◌, ◌≤◌, ◌++◌, List, length, None, IfSome, All};
ghost use Rattle.httparse.specs.Grammar.{RequestHead, MayBecomeRequest, print_request};
ghost use Rattle.httparse.specs.Spans.{IsHeaderWithin};
ghost use Rattle.plan_http.specs.Fields as spec;
ghost use Rattle.plan_http.specs.Fields.{fields_in};
ghost use Rattle.plan_http.specs.Checks.{first_failing, head_checks, lengths_in};
ghost use Rattle.plan_http.specs.Head.{BeginsWithHead};
ghost use Rattle.plan_http.specs.Asked.{IsPassed};

use crate::checks::check_head;
use crate::head::{FIELD_LIMIT, Judged, judge_head};
use httparse::spans::{EMPTY_HEADER_SPAN, HeaderSpan};

// The length of the body. It is 0 if the head fails a check.
fn body_size(front: &[u8], headers: &[HeaderSpan], minor: u8) -> usize
    requires { All (IsHeaderWithin (length front.now)) headers.now }
    ensures passed { first_failing (head_checks minor (fields_in front.now headers.now)) ≡ None
        → result ≡ spec.body_length (lengths_in (fields_in front.now headers.now)) }
    ensures most { result ≤ 1048576 }
{
    match check_head(front, headers, minor) {
        Ok(count) => count as usize,
        Err(_) => 0,
    }
}

/// Returns the size in bytes of the request that begins with these bytes: of its head and its body.
/// The body of a head that fails a check isn't read, and doesn't count. Returns 0 if the bytes begin
/// with no head, and None if more bytes can complete one.
pub fn request_size(front: &[u8]) -> Option<usize>
    requires room { length front.now ≤ 8192 }
    ensures size { IfSome result (λ size. (more : List ℕ) (h : RequestHead) (count : ℕ)
        → BeginsWithHead (front.now ++ more) h → IsPassed h count
        → size ≡ length (print_request h) + count) }
    ensures none { result ≡ None → (length front.now < 8192) × MayBecomeRequest front.now }
{
    let mut headers = [EMPTY_HEADER_SPAN; FIELD_LIMIT];
    match judge_head(front, false, &mut headers) {
        Judged::Whole(spans) => {
            let body = body_size(front, &headers[..spans.headers], spans.version);
            Some(spans.len + body)
        }
        Judged::Hopeless => Some(0),
        Judged::Unfinished => None,
    }
}
