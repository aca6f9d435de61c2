//! `plan replay`: the responses to connections whose bytes are in files.

ghost use Rattle.std.specs.Prelude.{◌≡◌, ◌⊎◌, ◌+◌, ◌≤◌, List, length, map, vec_items, IfOk, IfErr, IsErrOf, OnOk, OnErr};
ghost use Rattle.std.specs.List.{flat_map};
ghost use Rattle.plan_io.specs.Devices.{most_calls, HasFailed};
ghost use Rattle.plan_http.specs.Answers.{Decision};
ghost use Rattle.plan_http.specs.Connections.{Serving, Stops};
ghost use Rattle.plan_door.specs.ReplayRun as spec;

use crate::fault::ServeFault;
use plan_desk::{Book, Office};
use plan_http::serve_run;
use plan_io::{Sink, write_whole};
use std::alloc::{AllocError, Global};

// Concatenates texts.
fn concat(alloc: Global, texts: &[Vec<u8>]) -> Result<Vec<u8>, AllocError>
    ensures { IfOk result (λ all. all.items ≡ flat_map vec_items texts.now) }
{
    let mut all = Vec::new(alloc);
    for text in texts {
        all.extend_from_slice(text)?;
    }
    Ok(all)
}

// Serves connections one after another, and returns all responses.
fn responses<B: Book>(
    alloc: Global,
    office: &mut Office<B>,
    conns: &[Vec<u8>],
) -> Result<Vec<u8>, AllocError>
    ensures ok { IfOk result
        (λ text. (decisions : List Decision)
        × Serving B.shelf office.old (map vec_items conns.now) decisions office.new
        × (text.items ≡ spec.responses decisions)) }
    ensures err { OnErr result
        ((decisions : List Decision)
        × Stops B.shelf office.old office.new (map vec_items conns.now) decisions) }
{
    let mut out = Vec::new(alloc);
    let Ok(()) = serve_run(alloc, office, conns, &mut out) else {
        return Err(AllocError);
    };
    concat(alloc, &out)
}

/// Serves connections one after another, and writes the responses. Nothing is written before all
/// responses are complete, and a failed write is never repeated.
pub fn replay_run<B: Book, W: Sink>(
    alloc: Global,
    office: &mut Office<B>,
    conns: &[Vec<u8>],
    writer: &mut W,
) -> Result<(), ServeFault>
    ensures replays { spec.Replays B.shelf office.old office.new (map vec_items conns.now)
        (W.taken writer.old) (W.taken writer.new) result }
    // So a response to each connection is written, or a part of these responses.
    ensures ok { OnOk result
        (spec.AreAnswered (length conns.now) (W.taken writer.old) (W.taken writer.new)) }
    ensures part { IsErrOf result ServeFault.Output
        → spec.AreAnsweredInPart (length conns.now) (W.taken writer.old) (W.taken writer.new) }
    ensures writes { W.calls writer.new ≤ W.calls writer.old + most_calls }
    // Nothing is written if it fails for another cause than the output.
    ensures quiet { IfErr result (λ e. (e ≡ ServeFault.Output) ⊎ (writer.new ≡ writer.old)) }
    ensures fine { OnOk result (W.faults writer.new ≡ W.faults writer.old) }
    ensures output { IsErrOf result ServeFault.Output →
        HasFailed (W.calls writer.old) (W.calls writer.new)
        (W.faults writer.old) (W.faults writer.new) }
{
    let Ok(text) = responses(alloc, office, conns) else {
        return Err(ServeFault::Memory);
    };
    write_whole(writer, &text).map_err(|_| ServeFault::Output)
}
