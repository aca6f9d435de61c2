//! Projects from `.sm` texts.

ghost use Rattle.std.specs.Prelude.{◌≡◌, ◌⊎◌, ◌-◌, ◌≤◌, Some, Err, IfOk, IfErr, OnOk, OnErr, MatchResult, length, map, slice_get};
ghost use Rattle.plan_net.specs.Network.{IsActivity, IsArc};
ghost use Rattle.plan_net.specs.Refusals.{IsCycleOrMemory, IsLagFault};
ghost use Rattle.plan_net.specs.Successors.{AreRows, rows_in};
ghost use Rattle.plan_psplib.specs.declared.text.fault.Fault.{Fault};
ghost use Rattle.plan_psplib.specs.declared.text.fault.ReadError.TheVariants as errors;
ghost use Rattle.plan_psplib.specs.Document.{Document as Said, document_of, opened};
ghost use Rattle.plan_psplib.specs.Faults.{IsWantOfMemory, TellsError};
ghost use Rattle.plan_psplib.specs.Says.{Says};
ghost use Rattle.plan_psplib.specs.Project as spec;

use crate::sm::document::{Document, read_document};
use crate::text::{FileCode, FileFault, ReadError};
use plan_net::{LONGEST_LAG, NetFault, Network};
use std::alloc::Global;
use std::marker::Model;

/// A project: a network, the need of each activity for each renewable resource, and the
/// availability of each resource. Activities and resources are numbered from 1.
#[derive(Drop)]
pub struct ProjectDoc {
    network: Network,
    needs: Vec<Vec<u64>>,
    avail: Vec<u64>,
}

impl Model for ProjectDoc {
    ghost use Rattle.std.specs.Prelude.{map};
    ghost use Rattle.plan_psplib.specs.Project.{Project, IsProject};

    ghost Value = { Project };

    ghost view = { λ doc. record {
      network = doc.network;
      needs = map (λ row. row.items) doc.needs.items;
      available = doc.avail.items;
    } };

    ghost invariant = { λ doc. IsProject
        (record {
          network = doc.network;
          needs = map (λ row. row.items) doc.needs.items;
          available = doc.avail.items;
        }) };
}

impl ProjectDoc {
    /// The network of the activities.
    pub fn network(&self) -> &Network
        ensures network { result.now ≡ self.now.network }
        ensures project { spec.IsProject self.now }
    {
        &self.network
    }

    /// Returns the need of an activity for each resource while it lasts.
    pub fn needs(&self, activity: u32) -> &[u64]
        requires { IsActivity self.now.network activity }
        ensures row { slice_get self.now.needs (activity - 1) ≡ Some result.now }
        ensures amounts { spec.AreAmounts (length self.now.available) result.now }
    {
        &self.needs[activity as usize - 1]
    }

    /// Returns the availability of each resource.
    pub fn avail(&self) -> &[u64]
        ensures { result.now ≡ self.now.available }
    {
        &self.avail
    }

    /// Sets the lag of an arc: the second activity starts at least `lag` time units after the end
    /// of the first. Allocates nothing.
    ///
    /// Returns the error [`NetFault::NoArc`] if there is no such arc, then [`NetFault::BadLag`] if
    /// the lag is above 10,000.
    pub fn set_lag(&mut self, first: u32, second: u32, lag: u64) -> Result<(), NetFault>
        ensures ok { OnOk result (IsArc self.old.network first second × (lag ≤ LONGEST_LAG) ×
            (self.new ≡ spec.with_project_lag self.old first second lag)) }
        ensures refused { IfErr result (IsLagFault self.old.network first second lag) }
        ensures err { OnErr result (self.new ≡ self.old) }
    {
        self.network.set_lag(first, second, lag)
    }

    /// Returns the network, the needs of the activities in order, and the availability of each
    /// resource.
    pub fn into_parts(self) -> (Network, Vec<Vec<u64>>, Vec<u64>)
        ensures network { result.0 ≡ self.network }
        ensures needs { map (λ row. row.items) result.1.items ≡ self.needs }
        ensures avail { result.2.items ≡ self.available }
        ensures project { spec.IsProject self }
    {
        (self.network, self.needs, self.avail)
    }
}

/// Reads an `.sm` text (Kolisch and Sprecher 1996). Returns its project, or the first check that
/// fails, with its line. Any call can run out of memory, except one that fails before the first
/// section is read.
pub fn read_sm(alloc: Global, text: &[u8]) -> Result<ProjectDoc, FileFault>
    // The result is the project that the text describes, and its arcs have no cycle.
    ensures found { IfOk result (spec.SaysProject text.now) }
    // If the text describes a document, the result is its project, or out of memory, or the cycle
    // of its arcs.
    ensures only { (d : Said) → Says text.now d →
        MatchResult result (λ project. project ≡ spec.project_of d)
        (λ fault. IsWantOfMemory fault ⊎ spec.NamesCycleOf d fault) }
    // The error is out of memory, or the first check that fails.
    ensures refused { IfErr result (λ fault. IsWantOfMemory fault
        ⊎ spec.IsFirstFailing text.now fault) }
    // An error before the first section is read is returned even if memory runs out.
    ensures early { (f : Fault) → opened text.now ≡ Err f →
        MatchResult result (λ _. ⊥) (TellsError (errors.Fault f)) }
{
    let document = read_document(alloc, text).map_err(|error| FileFault::of(alloc, error))?;
    project_of(alloc, document)
}

// Returns the project of a document that some text describes, unless its arcs have a cycle.
fn project_of(alloc: Global, document: Document) -> Result<ProjectDoc, FileFault>
    requires said { spec.IsSaid (document_of document) }
    requires rows { AreRows (length document.requests.durations.items)
        (rows_in document.rows.items) }
    ensures { MatchResult result
        (λ project. spec.IsProject project × (project ≡ spec.project_of (document_of document)))
        (λ fault. IsWantOfMemory fault ⊎ spec.NamesCycleOf (document_of document) fault) }
{
    let Document {
        requests,
        rows,
        available,
        precedence_line,
    } = document;
    let network = Network::of_rows(alloc, requests.durations, rows).map_err(|fault| refusal(
        alloc,
        fault,
        precedence_line,
    ))?;
    Ok(ProjectDoc {
        network,
        needs: requests.needs,
        avail: available,
    })
}

// Returns the error of a text whose network has a cycle or ran out of memory.
fn refusal(alloc: Global, fault: NetFault, precedence_line: u64) -> FileFault
    requires { IsCycleOrMemory fault }
    ensures { spec.TellsOf fault precedence_line result }
{
    match fault {
        NetFault::Cycle(cycle) => FileFault {
            code: FileCode::Cycle,
            line: precedence_line,
            cycle,
        },
        NetFault::NoMemory => FileFault::of(alloc, ReadError::Memory),
        _ => unreachable!(),
    }
}
