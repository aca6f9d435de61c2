//! The output of two texts, one after the other, in as few writes as possible.

ghost use Rattle.std.specs.Prelude.{◌≡◌, ◌+◌, ◌<◌, ◌≤◌, ◌++◌, length, take, drop, IfErr, OnOk};
ghost use Rattle.std.specs.Io.KnownBytes.{Appends};
ghost use Rattle.plan_io.specs.Devices.{most_calls, HasFailed};

use plan_io::{MOST_CALLS, OutputError, Sink};

// The number of bytes of the first write: most responses fit.
const ROOM: usize = 4096;

// The same for short responses, because a buffer is set to zero first.
const SHORT_ROOM: usize = 512;

// The longest second text of a short response.
const SHORT: usize = 256;

// Copies a text and the part of a second text that fits, and returns the length of that part.
fn join(room: &mut [u8], first: &[u8], second: &[u8]) -> usize
    requires head { length first.now ≤ 256 }
    requires room { 256 ≤ length room.old }
    ensures within { result ≤ length second.now }
    ensures fits { length first.now + result ≤ length room.new }
    ensures same { length room.new ≡ length room.old }
    ensures joined { take (length first.now + result) room.new ≡ first.now
        ++ take result second.now }
{
    let start = first.len();
    let count = second.len().min(room.len() - start);
    room[..start].copy_from_slice(first);
    room[start..start + count].copy_from_slice(&second[..count]);
    count
}

// The next bytes of two texts after the first `sent` bytes; not empty if some are left.
fn rest_of<'a>(first: &'a [u8], second: &'a [u8], sent: usize) -> &'a [u8]
    requires { sent ≤ length first.now + length second.now }
    ensures front { result.now ≡ take (length result.now) (drop sent (first.now ++ second.now)) }
    ensures within { sent + length result.now ≤ length first.now + length second.now }
    ensures some { sent < length first.now + length second.now → 0 < length result.now }
{
    if sent < first.len() {
        return &first[sent..];
    }
    &second[sent - first.len()..]
}

// Writes two texts. A write of 0 bytes is repeated, a failed write isn't.
fn send_parts<W: Sink>(writer: &mut W, first: &[u8], second: &[u8]) -> Result<(), OutputError>
    requires { length first.now ≤ 4096 }
    ensures calls { W.calls writer.new ≤ W.calls writer.old + most_calls }
    ensures written { OnOk result
        (Appends (W.taken writer.old) (W.taken writer.new) (first.now ++ second.now)) }
    ensures fine { OnOk result (W.faults writer.new ≡ W.faults writer.old) }
    ensures part { IfErr result (λ e. (e.sent < length (first.now ++ second.now))
        × Appends (W.taken writer.old) (W.taken writer.new)
        (take e.sent (first.now ++ second.now))) }
    ensures failed { IfErr result (λ _.
        HasFailed (W.calls writer.old) (W.calls writer.new)
        (W.faults writer.old) (W.faults writer.new)) }
{
    let total = first.len() + second.len();
    let mut sent = 0;
    for _ in 0..MOST_CALLS {
        if sent == total {
            return Ok(());
        }
        let Ok(n) = writer.write(rest_of(first, second, sent)) else {
            return Err(OutputError { sent });
        };
        sent += n;
    }
    if sent == total {
        return Ok(());
    }
    Err(OutputError { sent })
}

// Writes two texts, the first one and the beginning of the second one through a buffer.
fn send_through<W: Sink>(
    writer: &mut W,
    room: &mut [u8],
    first: &[u8],
    second: &[u8],
) -> Result<(), OutputError>
    requires head { length first.now ≤ 256 }
    requires room { 256 ≤ length room.old }
    requires most { length room.old ≤ 4096 }
    ensures calls { W.calls writer.new ≤ W.calls writer.old + most_calls }
    ensures written { OnOk result
        (Appends (W.taken writer.old) (W.taken writer.new) (first.now ++ second.now)) }
    ensures fine { OnOk result (W.faults writer.new ≡ W.faults writer.old) }
    ensures part { IfErr result (λ e. (e.sent < length (first.now ++ second.now))
        × Appends (W.taken writer.old) (W.taken writer.new)
        (take e.sent (first.now ++ second.now))) }
    ensures failed { IfErr result (λ _.
        HasFailed (W.calls writer.old) (W.calls writer.new)
        (W.faults writer.old) (W.faults writer.new)) }
{
    let count = join(room, first, second);
    send_parts(writer, &room[..first.len() + count], &second[count..])
}

/// Writes two texts with at most as many calls as for one text: in one write if both are short. A
/// write of 0 bytes is repeated, a failed write isn't.
pub(crate) fn send<W: Sink>(writer: &mut W, first: &[u8], second: &[u8]) -> Result<(), OutputError>
    requires { length first.now ≤ 256 }
    ensures calls { W.calls writer.new ≤ W.calls writer.old + most_calls }
    ensures written { OnOk result
        (Appends (W.taken writer.old) (W.taken writer.new) (first.now ++ second.now)) }
    ensures fine { OnOk result (W.faults writer.new ≡ W.faults writer.old) }
    ensures part { IfErr result (λ e. (e.sent < length (first.now ++ second.now))
        × Appends (W.taken writer.old) (W.taken writer.new)
        (take e.sent (first.now ++ second.now))) }
    ensures failed { IfErr result (λ _.
        HasFailed (W.calls writer.old) (W.calls writer.new)
        (W.faults writer.old) (W.faults writer.new)) }
{
    if second.len() <= SHORT {
        let mut room = [0; SHORT_ROOM];
        return send_through(writer, &mut room, first, second);
    }
    let mut room = [0; ROOM];
    send_through(writer, &mut room, first, second)
}
