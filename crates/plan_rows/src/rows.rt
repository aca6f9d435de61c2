//! The rows that a book returns.

use crate::kinds::{Kind, PlanKind};

/// A desk: the SHA-256 of its key, and the number of its next plan.
#[derive(Debug, Drop)]
pub struct DeskRow {
    pub digest: [u8; 32],
    pub next: u64,
}

/// A published code.
#[derive(Debug, Drop)]
pub struct CodeRow {
    pub code: String,
    pub kind: Kind,
    pub capacity: u64,
}

/// A plan of a desk, by its number and kind.
#[derive(Debug, Clone, Copy, PartialEq, Eq, Drop)]
pub struct PlanEntry {
    pub n: u64,
    pub kind: PlanKind,
}

/// A code that is bound to a place. Places are the resources of a project, numbered from 1, or the
/// machines of a shop, numbered from 0.
#[derive(Debug, Drop)]
pub struct BindEntry {
    pub place: u64,
    pub code: String,
}

/// A lag above 0 on the arc between two activities, in whole time units.
#[derive(Debug, Clone, Copy, PartialEq, Eq, Drop)]
pub struct LagEntry {
    pub from: u32,
    pub to: u32,
    pub lag: u64,
}

/// A plan: its file as it was sent, the name of a shop's instance, its calendar (two empty texts if
/// it has none), and its binds and lags in ascending order.
#[derive(Debug, Drop)]
pub struct PlanRow {
    pub kind: PlanKind,
    pub name: String,
    pub body: Vec<u8>,
    pub start: String,
    pub days: String,
    pub binds: Vec<BindEntry>,
    pub lags: Vec<LagEntry>,
}
