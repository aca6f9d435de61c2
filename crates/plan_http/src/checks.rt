//! The checks of a request, and their order between the head and the body.

ghost use Rattle.std.specs.Prelude.{◌≡◌, ◌≤◌, None, Some, All, MatchResult, length, codes};
ghost use Rattle.httparse.specs.Spans.{IsHeaderWithin};
ghost use Rattle.plan_http.specs.Fields as spec;
ghost use Rattle.plan_http.specs.Fields.{fields_in};
ghost use Rattle.plan_http.specs.Checks.{first_failing, head_checks, lengths_in};

use crate::fields::count_of;
use crate::lengths::{LONGEST_BODY, length_in};
use httparse::spans::HeaderSpan;

/// A check that the bytes of a connection can fail.
#[derive(Debug, Clone, Copy, PartialEq, Eq, Drop)]
pub enum Check {
    /// The head, its Host and Content-Length, and the completeness of the body.
    Message,
    /// The length of the body.
    TooLarge,
    /// No Transfer-Encoding.
    Coding,
    /// A route for the target.
    Route,
    /// The method of the route.
    Method,
}

// Whether a request of HTTP/1.1 has no Host, or any request has several (RFC 9112, section 3.2).
fn is_host_wrong(front: &[u8], headers: &[HeaderSpan], minor: u8) -> bool
    requires { All (IsHeaderWithin (length front.now)) headers.now }
    ensures { result
        ≡ spec.is_host_wrong minor
        (spec.values_of (codes "host") (fields_in front.now headers.now)) }
{
    let hosts = count_of(front, headers, "host");
    (minor > 0 && hosts == 0) || hosts > 1
}

/// Returns the length of the body, or the first check that the head fails.
pub(crate) fn check_head(front: &[u8], headers: &[HeaderSpan], minor: u8) -> Result<u32, Check>
    requires { All (IsHeaderWithin (length front.now)) headers.now }
    ensures { MatchResult result
        (λ n. (first_failing (head_checks minor (fields_in front.now headers.now)) ≡ None)
        × (n ≡ spec.body_length (lengths_in (fields_in front.now headers.now)))
        × (n ≤ LONGEST_BODY))
        (λ check. first_failing (head_checks minor (fields_in front.now headers.now))
        ≡ Some check) }
{
    if is_host_wrong(front, headers, minor) {
        return Err(Check::Message);
    }
    let Some(length) = length_in(front, headers, "content-length") else {
        return Err(Check::Message);
    };
    if length > LONGEST_BODY {
        return Err(Check::TooLarge);
    }
    if count_of(front, headers, "transfer-encoding") > 0 {
        return Err(Check::Coding);
    }
    Ok(length)
}
