//! The rows of an office's tables.

use crate::kinds::PlanKind;

/// A desk: its name, the SHA-256 of its key, and the number of its next plan.
#[derive(Debug, Drop)]
pub struct DeskRecord {
    pub desk: String,
    pub digest: [u8; 32],
    pub next: u64,
}

/// A plan of a desk: its file as it was sent, the name of a shop's instance, and its calendar (two
/// empty texts if it has none).
#[derive(Debug, Drop)]
pub struct PlanRecord {
    pub desk: String,
    pub n: u64,
    pub kind: PlanKind,
    pub name: String,
    pub body: Vec<u8>,
    pub start: String,
    pub days: String,
}

/// A code that is bound to a place of a plan.
#[derive(Debug, Drop)]
pub struct BindRecord {
    pub desk: String,
    pub n: u64,
    pub place: u64,
    pub code: String,
}

/// A lag above 0 on an arc of a project.
#[derive(Debug, Drop)]
pub struct LagRecord {
    pub desk: String,
    pub n: u64,
    pub from: u32,
    pub to: u32,
    pub lag: u64,
}
