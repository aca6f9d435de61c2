//! The project or the job shop in a file.

ghost use Rattle.std.specs.Prelude.{◌≡◌, map, IfOk, IfErr};
ghost use Rattle.plan_table.specs.Names.{name_of};
ghost use Rattle.plan_errors.specs.Output.{Refuses};
ghost use Rattle.plan_documents.specs.Documents as spec;

use crate::capacities::{Capacity, replaced};
use crate::projects::{instance_with, read_project};
use crate::shops::{open_shop, read_instance};
use crate::waits::shown_ids;
use plan_errors::CliFault;
use plan_orlib::ShopDoc;
use plan_psplib::ProjectDoc;
use plan_sgs::Instance;
use plan_shop::Shop;
use plan_table::{NameLine, activity_names, machine_names, order_names, resource_names};
use std::alloc::{AllocError, Global};
use std::marker::Model;

/// The project or the job shop of a command.
#[derive(Clone, Copy, Debug, Drop)]
pub enum Subject<'a> {
    /// The project in a file, with these capacities in place of those of the file.
    Project(&'a [Capacity<'a>]),
    /// The instance with this name in a job shop file, or the only one if the name is `-`.
    Shop(&'a str),
}

/// The project in a file with a capacity for each of its resources, or an instance of a job shop
/// file.
#[derive(Drop)]
pub enum Document {
    Project(ProjectDoc, Vec<u64>),
    Shop(ShopDoc),
}

/// The ids of a project's activities, without those of waits.
#[derive(Drop)]
pub struct Ids<'a> {
    lines: Vec<NameLine<'a>>,
}

impl<'a> Model for Ids<'a> {
    ghost use Rattle.std.specs.Prelude.{List, map};
    ghost use Rattle.plan_table.specs.Names.{Name, name_of};

    ghost Value = { List Name };

    ghost view = { λ ids. map name_of ids.lines.items };
}

impl<'a> Ids<'a> {
    /// Returns the lines with the ids.
    pub fn lines(&self) -> &[NameLine<'a>]
        ensures { map name_of result.now ≡ self.now }
    {
        &self.lines
    }
}

/// A project whose needs are within its capacities, with the ids of its activities, or a job shop
/// with all machines open.
#[derive(Drop)]
pub enum Plan<'a> {
    Project(Instance<'a>, Ids<'a>),
    Shop(Shop),
}

/// Returns the ids of the activities in a project file, without those of waits. The file must have
/// been read before, so that only memory can run out.
#[tactic(auto, unfolding(crate::specs::Documents::ids_in))]
pub fn ids_of<'a>(alloc: Global, file: &'a [u8]) -> Result<Ids<'a>, AllocError>
    ensures { IfOk result (λ ids. ids ≡ spec.ids_in file.now) }
{
    let lines = shown_ids(alloc, file)?;
    Ok(Ids { lines })
}

// Reads the project in a file, with the given capacities in place of those of the file.
fn project_document(
    alloc: Global,
    given: &[Capacity<'_>],
    file: &[u8],
) -> Result<Document, CliFault>
    ensures read { IfOk result (spec.IsDocumentOf (Subject.Project given.entry) file.now) }
    ensures whole { IfOk result spec.IsWhole }
    ensures refused { IfErr result (Refuses
        (spec.TellsNoDocument (Subject.Project given.entry) file.now)) }
{
    let project = read_project(alloc, file)?;
    let names = resource_names(alloc, file)?;
    let capacities = replaced(alloc, &names, given, project.avail())?;
    Ok(Document::Project(project, capacities))
}

/// Reads the project or the job shop in a file.
pub fn read_document(alloc: Global, subject: Subject<'_>, file: &[u8]) -> Result<Document, CliFault>
    ensures read { IfOk result (spec.IsDocumentOf subject.entry file.now) }
    ensures whole { IfOk result spec.IsWhole }
    ensures refused { IfErr result (Refuses (spec.TellsNoDocument subject.entry file.now)) }
{
    match subject {
        Subject::Project(given) => project_document(alloc, given, file),
        Subject::Shop(instance) => Ok(Document::Shop(read_instance(alloc, instance, file)?)),
    }
}

/// Returns the plan of the document in a file.
pub fn plan_of<'a>(
    alloc: Global,
    document: &'a Document,
    file: &'a [u8],
) -> Result<Plan<'a>, CliFault>
    requires { spec.IsWhole document.now }
    ensures plan { IfOk result (λ plan. plan ≡ spec.plan_in document.now (spec.ids_in file.now)) }
    ensures fit { IfOk result spec.HasFit }
    ensures refused { IfErr result (Refuses (spec.TellsNoPlan document.now)) }
{
    match document {
        Document::Project(project, capacities) => {
            let instance = instance_with(alloc, project, capacities, file)?;
            // The proof needs the instance's invariant, which this call states.
            let _network = instance.network();
            Ok(Plan::Project(instance, ids_of(alloc, file)?))
        }
        Document::Shop(doc) => Ok(Plan::Shop(open_shop(alloc, doc)?)),
    }
}

/// Returns the names of the activities of a project, or of the orders of a job shop.
pub fn names_of_rows<'a>(
    alloc: Global,
    subject: Subject<'_>,
    file: &'a [u8],
) -> Result<Vec<NameLine<'a>>, AllocError>
    ensures { IfOk result (λ names.
        map name_of names.items ≡ spec.names_of_rows subject.entry file.now) }
{
    match subject {
        Subject::Project(_) => activity_names(alloc, file),
        Subject::Shop(instance) => order_names(alloc, file, instance.as_bytes()),
    }
}

/// Returns the names of the lines of a chart: those of activities, or of machines.
pub fn names_of_lines<'a>(
    alloc: Global,
    subject: Subject<'_>,
    file: &'a [u8],
) -> Result<Vec<NameLine<'a>>, AllocError>
    ensures { IfOk result (λ names.
        map name_of names.items ≡ spec.names_of_lines subject.entry file.now) }
{
    match subject {
        Subject::Project(_) => activity_names(alloc, file),
        Subject::Shop(instance) => machine_names(alloc, file, instance.as_bytes()),
    }
}

/// Returns the ids of the activities of a project, without those of waits. A job shop has none.
#[tactic(auto, unfolding(crate::specs::Documents::ids_in))]
pub fn ids_of_rows<'a>(
    alloc: Global,
    subject: Subject<'_>,
    file: &'a [u8],
) -> Result<Vec<NameLine<'a>>, AllocError>
    ensures { IfOk result (λ ids.
        map name_of ids.items ≡ spec.ids_of_rows subject.entry file.now) }
{
    match subject {
        Subject::Project(_) => shown_ids(alloc, file),
        Subject::Shop(_) => Ok(Vec::new(alloc)),
    }
}
