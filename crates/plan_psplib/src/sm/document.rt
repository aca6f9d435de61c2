//! An `.sm` text as a document, before its arcs are tested for a cycle.

ghost use Rattle.std.specs.Prelude.{◌≡◌, Ok, Err, IfOk, MatchResult, length};
ghost use Rattle.plan_net.specs.Successors.{AreRows, rows_in};
ghost use Rattle.plan_psplib.specs.declared.text.fault.Fault.{Fault};
ghost use Rattle.plan_psplib.specs.declared.text.fault.ReadError.TheVariants as errors;
ghost use Rattle.plan_psplib.specs.Tokens.{Gives, Reads};
ghost use Rattle.plan_psplib.specs.Document as spec;
ghost use Rattle.plan_psplib.specs.Says.{Says};

use crate::sm::head::head_sizes;
use crate::sm::precedence::precedence;
use crate::sm::requests::{Requests, availabilities, read_requests};
use crate::sm::sections::{Outline, Section};
use crate::text::{Fault, FileCode, ReadError, StreamWords, check_text};
use std::alloc::Global;

/// The contents of a project file. The arcs may have a cycle.
#[derive(Drop)]
pub struct Document {
    pub requests: Requests,
    pub rows: Vec<Vec<u32>>,
    pub available: Vec<u64>,
    pub precedence_line: u64,
}

/// Returns the document of a text, or the first check that fails.
pub fn read_document(alloc: Global, text: &[u8]) -> Result<Document, ReadError>
    ensures exact { Gives spec.document_of result (spec.document text.now) }
    // The result is the document that the text describes.
    ensures found { IfOk result (λ d. Says text.now (spec.document_of d)) }
    // If the text describes a document, the result is that document, or out of memory.
    ensures only { (d : spec.Document) → Says text.now d → Gives spec.document_of result (Ok d) }
    // There is a row of successors for each job, with jobs of the project, each at most once.
    ensures rows { IfOk result (λ d. AreRows (length d.requests.durations.items)
        (rows_in d.rows.items)) }
    // An error before the first section is read is returned even if memory runs out.
    ensures early { (f : Fault) → spec.opened text.now ≡ Err f →
        MatchResult result (λ _. ⊥) (λ e. e ≡ errors.Fault f) }
{
    sections_of(alloc, text)
}

// Reads the sections of a text, one after another.
#[tactic(auto, unfolding(crate::specs::Document::document, crate::specs::Document::opened))]
fn sections_of(alloc: Global, text: &[u8]) -> Result<Document, ReadError>
    ensures exact { Gives spec.document_of result (spec.document text.now) }
    ensures rows { IfOk result (λ d. AreRows (length d.requests.durations.items)
        (rows_in d.rows.items)) }
    ensures early { (f : Fault) → spec.opened text.now ≡ Err f →
        MatchResult result (λ _. ⊥) (λ e. e ≡ errors.Fault f) }
{
    check_text(text)?;
    let outline = Outline::of(text);
    let last = outline.last;
    let sizes = head_sizes(text, last)?;
    let mut words = found_section(outline.precedence, last)?;
    let precedence_line = words.last();
    let rows = precedence(alloc, &mut words, sizes.jobs)?;
    let mut words = found_section(outline.requests, last)?;
    let requests = read_requests(alloc, &mut words, sizes.jobs, sizes.resources)?;
    let mut words = found_section(outline.availabilities, last)?;
    let available = availabilities(alloc, &mut words, sizes.resources)?;
    Ok(Document {
        requests,
        rows,
        available,
        precedence_line,
    })
}

fn found_section(
    section: Option<StreamWords<'_, Section>>,
    last: u64,
) -> Result<StreamWords<'_, Section>, Fault>
    ensures { Reads (λ words. words) result (spec.found_section last section.entry) }
{
    section.ok_or(Fault::new(FileCode::MissingSection, last))
}
