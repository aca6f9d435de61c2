//! The rows of an office that stay in memory while its plans are tested one at a time.

use crate::kinds::PlanKind;
use crate::rows::CodeRow;
use crate::tables::{BindRecord, DeskRecord, LagRecord};

/// The rows of an office except its plans.
#[derive(Clone, Copy, Drop)]
pub struct Beside<'a> {
    pub office: &'a [u8; 32],
    pub published: &'a [CodeRow],
    pub desks: &'a [DeskRecord],
    pub binds: &'a [BindRecord],
    pub lags: &'a [LagRecord],
}

/// A tested plan without its file: its key, its kind and the number of its places.
#[derive(Debug, Drop)]
pub struct PlanSeen {
    pub desk: String,
    pub n: u64,
    pub kind: PlanKind,
    pub places: u64,
}
