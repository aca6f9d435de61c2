//! Files as a store holds them.

use plan_rows::{LagEntry, PlanKind};

// The data of a plan on which its document depends: its kind, the name of a shop's instance, its
// body, and the lags of a project.
#[derive(Clone, Copy, Drop)]
pub(crate) struct StoredFile<'a> {
    pub kind: PlanKind,
    pub name: &'a str,
    pub body: &'a [u8],
    pub lags: &'a [LagEntry],
}
