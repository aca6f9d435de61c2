//! Serving by an office over a book, which is returned at the end.

ghost use Rattle.std.specs.Prelude.{◌≡◌, ◌⊎◌, ◌+◌, ◌≤◌, length, map, vec_items, IfSome, IfErr, IfNone, IsErrOf, OnOk, MatchOption};
ghost use Rattle.plan_io.specs.Devices.{most_calls, HasFailed};
ghost use Rattle.plan_door.specs.Ports.{IsPortCause, IsPortFault, ServesFrom, TakesTurns};
ghost use Rattle.plan_door.specs.ReplayRun.{AreAnswered, AreAnsweredInPart, Replays, ReplaysFrom};

use crate::fault::ServeFault;
use crate::replay::replay_run;
use crate::service::Service;
use crate::socket::serve_listener;
use plan_desk::{Book, Office};
use plan_io::Sink;
use std::alloc::Global;
use std::io::ErrorKind;
use std::net::{Ipv4Addr, TcpListener};

/// Serves connections by an office over a book, writes the responses, and returns the book, unless
/// memory runs out before the first connection.
#[tactic(auto, using(crate::proofs::BookLemmas::replays, crate::proofs::BookLemmas::replays_not))]
pub fn replay_book<B: Book + Drop, W: Sink>(
    alloc: Global,
    book: B,
    conns: &[Vec<u8>],
    writer: &mut W,
) -> (Result<(), ServeFault>, Option<B>)
    ensures replays { OnOk result.0
        (ReplaysFrom B.shelf book (map vec_items conns.now)
        (W.taken writer.old) (W.taken writer.new)) }
    ensures ok { OnOk result.0
        (AreAnswered (length conns.now) (W.taken writer.old) (W.taken writer.new)) }
    ensures part { IsErrOf result.0 ServeFault.Output
        → AreAnsweredInPart (length conns.now) (W.taken writer.old) (W.taken writer.new) }
    ensures writes { W.calls writer.new ≤ W.calls writer.old + most_calls }
    ensures quiet { IfErr result.0
        (λ e. (e ≡ ServeFault.Output) ⊎ (writer.new ≡ writer.old)) }
    ensures fine { OnOk result.0 (W.faults writer.new ≡ W.faults writer.old) }
    ensures output { IsErrOf result.0 ServeFault.Output →
        HasFailed (W.calls writer.old) (W.calls writer.new)
        (W.faults writer.old) (W.faults writer.new) }
    ensures which { IfErr result.0 (λ e. (e ≡ ServeFault.Memory) ⊎ (e ≡ ServeFault.Output)) }
    ensures back { IfNone result.1 (IsErrOf result.0 ServeFault.Memory) }
    // The returned book is the one after the written responses, or after the fault.
    ensures tied { MatchOption result.1 (writer.new ≡ writer.old)
        (λ after. Replays B.shelf book after (map vec_items conns.now)
        (W.taken writer.old) (W.taken writer.new) result.0) }
{
    let Ok(mut office) = Office::new(alloc, book) else {
        return (Err(ServeFault::Memory), None);
    };
    let done = replay_run(alloc, &mut office, conns, writer);
    (done, Some(office.into_book()))
}

// The fault of a port, from the system's error.
fn port_fault(kind: ErrorKind) -> ServeFault
    ensures { IsPortCause kind result }
{
    if kind == ErrorKind::AddrInUse {
        return ServeFault::PortTaken;
    }
    if kind == ErrorKind::PermissionDenied {
        return ServeFault::PortDenied;
    }
    if kind == ErrorKind::OutOfMemory {
        return ServeFault::Memory;
    }
    ServeFault::Socket
}

// Prints that the office is served, if the log is kept.
fn announce(rt: &HostRuntime, service: &Service<'_>) {
    if service.is_logged {
        let (database, port) = (service.database, service.port);
        let _ = eprintln!(rt; "serving {database} on 127.0.0.1:{port}");
    }
}

// Serves connections on a local port, by an office.
#[tactic(auto, using(crate::proofs::BookLemmas::port_faults, crate::proofs::BookLemmas::listener_turns))]
fn serve_by<B: Book>(
    rt: &HostRuntime,
    office: &mut Office<B>,
    service: &Service<'_>,
) -> Result<(), ServeFault>
    ensures ok { OnOk result (ServesFrom B.shelf office.old service.now.count) }
    ensures which { IfErr result IsPortFault }
    ensures turns { TakesTurns B.shelf office.old office.new service.now.count result }
{
    match TcpListener::bind(rt, (Ipv4Addr::LOCALHOST, service.port)) {
        Ok(listener) => {
            announce(rt, service);
            serve_listener(rt, office, &listener, service)
        }
        Err(error) => Err(port_fault(error.kind())),
    }
}

/// Serves connections on a local port by an office over a book, and returns the book, unless memory
/// runs out before the port is bound.
pub fn serve_book<B: Book + Drop>(
    rt: &HostRuntime,
    book: B,
    service: &Service<'_>,
) -> (Result<(), ServeFault>, Option<B>)
    ensures ok { OnOk result.0 (ServesFrom B.shelf book service.now.count) }
    ensures which { IfErr result.0 IsPortFault }
    ensures back { IfNone result.1 (IsErrOf result.0 ServeFault.Memory) }
    // The returned book is the one after the turns.
    ensures tied { IfSome result.1
        (λ after. TakesTurns B.shelf book after service.now.count result.0) }
{
    let Ok(mut office) = Office::new(rt.alloc(), book) else {
        return (Err(ServeFault::Memory), None);
    };
    let done = serve_by(rt, &mut office, service);
    (done, Some(office.into_book()))
}
