//! The errors of files and of priority rules as values.

ghost use Rattle.std.specs.Prelude.{◌≡◌, ◌++◌, IfOk, codes};
ghost use Rattle.std.specs.Fmt.{decimal};
ghost use Rattle.plan_gantt.specs.ScheduleFaultText.{need_text};
ghost use Rattle.plan_errors.specs.Codes.{name_of};
ghost use Rattle.plan_errors.specs.Faults.{IsAbout};
ghost use Rattle.plan_errors.specs.Output.{Refuses};
ghost use Rattle.plan_errors.specs.Parts.{parts_text};
ghost use Rattle.plan_documents.specs.Lines.{Tells};
ghost use Rattle.plan_documents.specs.Contents.{KnowsFile};
ghost use Rattle.plan_documents.specs.Refusals as spec;

use crate::contents::contents_of;
use plan_errors::{About, CliFault, Code, Key, Part, refuse, refuse_words};
use plan_psplib::{FileCode, FileFault};
use std::alloc::{AllocError, Global};

/// Returns the code of a check that a file fails.
pub fn file_code(code: FileCode) -> Code
    ensures { result ≡ spec.file_code code }
{
    match code {
        FileCode::TooLong => Code::TooLong,
        FileCode::NotText => Code::NotText,
        FileCode::MissingHead => Code::MissingHead,
        FileCode::Unsupported => Code::Unsupported,
        FileCode::MissingSection => Code::MissingSection,
        FileCode::BadNumber => Code::BadNumber,
        FileCode::JobOrder => Code::JobOrder,
        FileCode::Modes => Code::Modes,
        FileCode::Count => Code::Count,
        FileCode::Limit => Code::Limit,
        FileCode::Double => Code::Double,
        FileCode::Cycle => Code::Cycle,
        FileCode::NoInstance => Code::NoInstance,
        FileCode::BadMachine => Code::BadMachine,
        FileCode::Memory => Code::NoMemory,
    }
}

// Returns the line of an error.
fn line_parts(alloc: Global, line: u64) -> Result<Vec<Part>, AllocError>
    ensures { IfOk result (λ list. parts_text list.items ≡ codes " line " ++ decimal line) }
{
    Ok(Vec::from_array(alloc, [Part::Number(Key::Line, line)])?)
}

// Returns the line of the error of a cycle, and its activities.
fn cycle_parts(alloc: Global, line: u64, cycle: &[u32]) -> Result<Vec<Part>, AllocError>
    ensures { IfOk result (λ list.
        parts_text list.items ≡ spec.place_by FileCode.Cycle line cycle.now) }
{
    let cycle = Part::Numbers(Key::Cycle, Vec::from_slice(alloc, cycle)?);
    Ok(Vec::from_array(alloc, [Part::Number(Key::Line, line), cycle])?)
}

/// Returns the place of an error in a file.
pub fn place_parts(alloc: Global, fault: &FileFault) -> Result<Vec<Part>, AllocError>
    ensures { IfOk result (λ list. parts_text list.items ≡ spec.place_of fault.now) }
{
    match fault.code {
        FileCode::Cycle => cycle_parts(alloc, fault.line, &fault.cycle),
        _ => line_parts(alloc, fault.line),
    }
}

// Returns the error of a file without its contents.
fn plain_refusal(alloc: Global, fault: &FileFault) -> CliFault
    ensures told { Refuses (Tells fault.now) result }
    ensures about { IsAbout About.Plan result }
{
    if fault.code == FileCode::Memory {
        return CliFault::Memory;
    }
    refuse(
        file_code(fault.code),
        About::Plan,
        place_parts(alloc, fault),
    )
}

/// Returns the error of a file.
#[tactic(auto, using(crate::proofs::RefusalLemmas::known_refused))]
pub fn file_refusal(alloc: Global, fault: &FileFault, file: &[u8]) -> CliFault
    ensures told { Refuses (Tells fault.now) result }
    ensures about { IsAbout About.Plan result }
    ensures contents { KnowsFile file.now result }
{
    plain_refusal(alloc, fault).with_contents(contents_of(alloc, file))
}

// Returns an activity and a resource.
fn need_parts(alloc: Global, activity: u32, resource: u32) -> Result<Vec<Part>, AllocError>
    ensures { IfOk result (λ list. codes "S1" ++ parts_text list.items
        ≡ need_text activity resource) }
{
    let activity = Part::Number(Key::Activity, activity as u64);
    let resource = Part::Number(Key::Resource, resource as u64);
    Ok(Vec::from_array(alloc, [activity, resource])?)
}

/// Returns the error of a project with a need above a capacity.
pub fn need_refusal(alloc: Global, activity: u32, resource: u32) -> CliFault
    ensures told { Refuses (λ line. line ≡ need_text activity resource) result }
    ensures about { IsAbout About.Plan result }
{
    refuse(
        Code::NeedsTooMuch,
        About::Plan,
        need_parts(alloc, activity, resource),
    )
}

/// Returns the error of a name that no rule has.
pub fn rule_refusal(alloc: Global) -> CliFault
    ensures told { Refuses (λ line. line ≡ codes "S3 unknown rule") result }
    ensures about { IsAbout About.Rule result }
{
    refuse_words(alloc, Code::UnknownRule, About::Rule, "unknown rule")
}
