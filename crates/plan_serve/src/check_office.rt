//! `plan check-office`: the number of rows of an office, and a digest of them.

ghost use Rattle.std.specs.Prelude.{◌≡◌, ◌⊎◌, ◌+◌, ◌≤◌, IfErr, IsErrOf, OnOk};
ghost use Rattle.plan_io.specs.Devices.{most_calls, HasFailed};
ghost use Rattle.plan_desk.specs.BookSteps.{Quiet};
ghost use Rattle.plan_serve.specs.CheckRun.{Writes};

use crate::fault::book_fault;
use plan_door::ServeFault;
use plan_io::{Sink, write_whole};
use plan_rows::Listing;
use plan_summary::{summary_of, summary_text};
use std::alloc::Global;

/// Writes the number of rows in each table of a book, and the digest of the text of all rows.
/// Nothing is written before all rows were read, and a failed write is never repeated.
#[tactic(auto, using(crate::proofs::CheckLemmas::none_written))]
pub fn check_office_run<B: Listing, W: Sink>(
    alloc: Global,
    book: &mut B,
    writer: &mut W,
) -> Result<(), ServeFault>
    ensures quiet { Quiet B.shelf book.old book.new }
    ensures checks { Writes B.shelf book.old book.new (W.taken writer.old) (W.taken writer.new)
        result }
    ensures writes { W.calls writer.new ≤ W.calls writer.old + most_calls }
    // Nothing is written if it fails for another cause than the output.
    ensures silent { IfErr result
        (λ e. (e ≡ ServeFault.Output) ⊎ (writer.new ≡ writer.old)) }
    ensures fine { OnOk result (W.faults writer.new ≡ W.faults writer.old) }
    ensures output { IsErrOf result ServeFault.Output →
        HasFailed (W.calls writer.old) (W.calls writer.new)
        (W.faults writer.old) (W.faults writer.new) }
{
    let summary = summary_of(alloc, book).map_err(book_fault)?;
    let Ok(text) = summary_text(alloc, &summary) else {
        return Err(ServeFault::Memory);
    };
    write_whole(writer, text.as_bytes()).map_err(|_| ServeFault::Output)
}
