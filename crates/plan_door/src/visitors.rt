//! Connections from any source, one after another.

ghost use Rattle.std.specs.Prelude.{◌≡◌, ◌⊎◌, ◌↔◌, ◌+◌, ◌≤◌, ℕ, [], List, length, Option, Some, Result, IsTrue, IfOk, OnOk, IsErrOf, IfErr};
ghost use Rattle.plan_io.specs.Devices.{IsCounted};
ghost use Rattle.plan_io.specs.declared.traits.DeviceFault.{DeviceFault};
ghost use Rattle.plan_http.specs.declared.connection.ConnEnd.{ConnEnd};
ghost use Rattle.plan_http.specs.Clients.{IsFresh};
ghost use Rattle.plan_http.specs.Answers.{Decision};
ghost use Rattle.plan_door.specs.Serve.{MovedBy};
ghost use Rattle.plan_door.specs.Turns.{Turn, IsTurn, Runs, IsVisited, Visiting};

use crate::fault::ServeFault;
use plan_desk::{Book, Office};
use plan_http::{Client, ConnEnd, Routes, serve_conn};
use plan_io::{DeviceFault, Sink};
use std::alloc::Global;

/// A source of connections.
pub trait Visitors {
    type Reader: Client + Drop;

    type Writer: Sink + Drop;

    /// The number of times that a connection was awaited.
    ghost awaited: { Self → ℕ };

    /// The number of these that brought no connection.
    ghost missed: { Self → ℕ };

    /// No more connections will come.
    ghost closed: { Self → Type 0 };

    /// The possible outcomes of awaiting a connection.
    ghost admits: { Self → Self → Result (Self.Reader × Self.Writer) DeviceFault → Type 0 };

    /// The possible outcomes of closing a connection.
    ghost dismisses: { Self → Self → Self.Reader → Self.Writer → ConnEnd → Type 0 };

    /// Awaits a connection. Nothing was read from it or written to it.
    fn admit(&mut self) -> Result<(Self::Reader, Self::Writer), DeviceFault>
        ensures counted { IsCounted (awaited self.old) (awaited self.new) (missed self.old)
            (missed self.new) result }
        ensures admitted { admits self.old self.new result }
        ensures untouched { IfOk result
            (λ sides. (Self.Reader.calls sides.0 ≡ 0) × (Self.Writer.calls sides.1 ≡ 0)) }
        ensures fresh { IfOk result
            (λ sides. IsFresh (Self.Reader.known sides.0)
            × (Self.Writer.taken sides.1 ≡ Some [])) };

    /// Closes a connection that was served.
    fn dismiss(&mut self, reader: Self::Reader, writer: Self::Writer, end: ConnEnd)
        ensures same { (awaited self.new ≡ awaited self.old)
            × (missed self.new ≡ missed self.old) }
        ensures dismissed { dismisses self.old self.new reader writer end };

    /// Whether no more connections will come.
    fn is_closed(&self) -> bool
        ensures { IsTrue result ↔ closed self.now };
}

// The turn of the next connection.
fn serve_turn<B: Book, V: Visitors>(
    alloc: Global,
    routes: &Routes,
    office: &mut Office<B>,
    visitors: &mut V,
)
    ensures awaited { V.awaited visitors.new ≡ V.awaited visitors.old + 1 }
    ensures turn { (turn : Turn) × IsTurn B.shelf office.old office.new turn
        × IsVisited V.Reader.known V.Writer.taken V.admits V.dismisses visitors.old visitors.new
        turn }
{
    let Ok((reader, writer)) = visitors.admit() else {
        return;
    };
    let mut reader = reader;
    let mut writer = writer;
    let end = serve_conn(alloc, routes, office, &mut reader, &mut writer);
    visitors.dismiss(reader, writer, end);
}

/// Serves `count` connections, one after another. A connection that doesn't come, or fails, counts
/// too, and has no effect on others. It ends early if no more connections will come.
pub fn serve_visitors<B: Book, V: Visitors>(
    alloc: Global,
    office: &mut Office<B>,
    visitors: &mut V,
    count: u32,
) -> Result<(), ServeFault>
    ensures awaited { OnOk result (V.awaited visitors.new ≡ V.awaited visitors.old + count) }
    ensures visits { OnOk result (Visiting V.Reader.known V.Writer.taken V.admits V.dismisses
        B.shelf office.old office.new visitors.old visitors.new count) }
    // So, for the office alone:
    ensures turns { OnOk result
        ((turns : List Turn) × (length turns ≡ count)
        × Runs B.shelf office.old office.new turns) }
    ensures moves { OnOk result
        ((decisions : List Decision) × (length decisions ≤ count)
        × MovedBy B.shelf office.old decisions office.new) }
    // It fails for one of two causes. Memory runs out before the first connection;
    ensures memory { IsErrOf result ServeFault.Memory
        → (office.new ≡ office.old) × (visitors.new ≡ visitors.old) }
    // or no more connections come, after some turns.
    ensures closed { IsErrOf result ServeFault.Socket → V.closed visitors.new
        × (n : ℕ) × (n ≤ count) × (V.awaited visitors.new ≡ V.awaited visitors.old + n)
        × Visiting V.Reader.known V.Writer.taken V.admits V.dismisses
        B.shelf office.old office.new visitors.old visitors.new n }
    ensures which { IfErr result (λ e. (e ≡ ServeFault.Memory) ⊎ (e ≡ ServeFault.Socket)) }
{
    let Ok(routes) = Routes::new(alloc) else {
        return Err(ServeFault::Memory);
    };
    for _ in 0..count {
        serve_turn(alloc, &routes, office, visitors);
        if visitors.is_closed() {
            return Err(ServeFault::Socket);
        }
    }
    Ok(())
}
