//! The head of a request, read in pieces of any size.

ghost use Rattle.std.specs.Prelude.{◌≡◌, ℕ, ◌+◌, ◌<◌, ◌≤◌, ◌++◌, true, List, [], length, take, IfOk};
ghost use Rattle.plan_io.specs.Devices.{IsCounted};
ghost use Rattle.plan_http.specs.Pieces.{Reads, IsSplit, JudgedOf, JudgedWithin, Fills, HeadOutcome, HeadWithin, HeadFaults};

use crate::client::Client;
use httparse::Status;
use httparse::spans::{HeaderSpan, RequestSpans, parse_request};
use plan_io::DeviceFault;

/// The greatest number of bytes of a head.
pub(crate) const HEAD_LIMIT: usize = 8192;

/// The greatest number of fields of a head.
pub(crate) const FIELD_LIMIT: usize = 64;

/// The result of reading a head.
#[derive(Clone, Copy)]
pub(crate) enum HeadEnd {
    /// The parts of the head, and the number of bytes that were read.
    Found(RequestSpans, usize),
    /// The bytes don't begin with a head.
    Missing,
    /// The reader failed.
    Failed,
}

/// The state of the first bytes of a connection.
#[derive(Clone, Copy)]
pub(crate) enum Judged {
    /// They begin with a head.
    Whole(RequestSpans),
    /// They don't, whatever follows.
    Hopeless,
    /// More bytes can complete a head.
    Unfinished,
}

// Reads once, to the place behind the filled part of the buffer.
pub(crate) fn fill<R: Client>(
    reader: &mut R,
    buf: &mut [u8],
    filled: usize,
) -> Result<usize, DeviceFault>
    requires { filled < length buf.old }
    ensures counted { IsCounted (R.calls reader.old) (R.calls reader.new)
        (R.faults reader.old) (R.faults reader.new) result }
    ensures within { IfOk result (λ came. filled + came ≤ length buf.new) }
    ensures bytes { Reads (R.known reader.old) (R.known reader.new)
        (λ had left. Fills buf.old filled had buf.new left result) }
{
    reader.read(&mut buf[filled..])
}

/// Whether the bytes begin with a head: they are all bytes if `is_end`, else more may follow.
pub(crate) fn judge_head(front: &[u8], is_end: bool, headers: &mut [HeaderSpan]) -> Judged
    requires room { length front.now ≤ 8192 }
    requires fields { length headers.old ≡ 64 }
    ensures within { JudgedWithin front.now is_end headers.new result }
    ensures judged { (bytes more : List ℕ) → bytes ≡ front.now ++ more
        → (is_end ≡ true → more ≡ [])
        → JudgedOf bytes front.now headers.new result }
{
    match parse_request(front, headers) {
        Ok(status) => match status {
            Status::Complete(spans) => Judged::Whole(spans),
            Status::Partial => {
                if is_end {
                    return Judged::Hopeless;
                }
                if front.len() == HEAD_LIMIT {
                    return Judged::Hopeless;
                }
                Judged::Unfinished
            }
        },
        Err(_) => Judged::Hopeless,
    }
}

/// Reads until the head is complete, or no head is possible. The buffer begins with `from` bytes
/// that were read before.
pub(crate) fn read_head<R: Client>(
    reader: &mut R,
    buf: &mut [u8],
    from: usize,
    headers: &mut [HeaderSpan],
) -> HeadEnd
    requires room { length buf.old ≡ 8192 }
    requires from { from < 8192 }
    requires fields { length headers.old ≡ 64 }
    ensures within { HeadWithin buf.new headers.new result }
    ensures outcome { Reads (R.known reader.old) (R.known reader.new)
        (λ had left. (bytes : List ℕ) → IsSplit bytes (take from buf.old) had
        → HeadOutcome bytes left buf.new headers.new result) }
    ensures calls { R.calls reader.new ≤ R.calls reader.old + 8193 }
    ensures faults { HeadFaults (R.faults reader.old) (R.faults reader.new) result }
{
    let mut filled = from;
    for _ in 0..8193_u32 {
        let Ok(came) = fill(reader, buf, filled) else {
            return HeadEnd::Failed;
        };
        filled += came;
        match judge_head(&buf[..filled], came == 0, headers) {
            Judged::Whole(spans) => return HeadEnd::Found(spans, filled),
            Judged::Hopeless => return HeadEnd::Missing,
            Judged::Unfinished => {}
        }
    }
    HeadEnd::Failed
}
