//! The calls that read the tables.

ghost use Rattle.std.specs.Prelude.{◌≡◌, find, string_bytes, IfOk};
ghost use Rattle.plan_rows.specs.World.{desk_in, code_in};
ghost use Rattle.plan_rows.specs.Views.{view};
ghost use Rattle.plan_rows.specs.Plans.{has_number};
ghost use Rattle.plan_rows.specs.Books.{Matches, IsDeskAnswer, IsCapacityAnswer};
ghost use Rattle.plan_rows.specs.Books.{IsPlanAnswer, ListsCodes, ListsPlans};
ghost use Rattle.plan_rows.specs.Tables.{world_kept};

use crate::kinds::Kind;
use crate::rows::{BindEntry, CodeRow, DeskRow, LagEntry, PlanEntry, PlanRow};
use crate::tables::Tables;
use crate::tables::binds::list_binds;
use crate::tables::codes::{code_at, list_codes};
use crate::tables::desks::desk_at;
use crate::tables::lags::list_lags;
use crate::tables::plans::{list_plans, plan_at};
use crate::tables::records::PlanRecord;
use std::alloc::{AllocError, Global};

// Copies a plan with its binds and lags.
fn copy_plan(
    alloc: Global,
    row: &PlanRecord,
    binds: Vec<BindEntry>,
    lags: Vec<LagEntry>,
) -> Result<PlanRow, AllocError>
    ensures kind { IfOk result (λ plan. plan.kind ≡ row.now.kind) }
    ensures name { IfOk result (λ plan. string_bytes plan.name ≡ string_bytes row.now.name) }
    ensures body { IfOk result (λ plan. plan.body.items ≡ row.now.body.items) }
    ensures start { IfOk result (λ plan. string_bytes plan.start ≡ string_bytes row.now.start) }
    ensures days { IfOk result (λ plan. string_bytes plan.days ≡ string_bytes row.now.days) }
    ensures binds { IfOk result (λ plan. plan.binds ≡ binds) }
    ensures lags { IfOk result (λ plan. plan.lags ≡ lags) }
{
    Ok(PlanRow {
        kind: row.kind,
        name: String::from_str(alloc, row.name.as_str())?,
        body: Vec::from_slice(alloc, row.body.as_slice())?,
        start: String::from_str(alloc, row.start.as_str())?,
        days: String::from_str(alloc, row.days.as_str())?,
        binds,
        lags,
    })
}

impl Tables {
    /// Finds a desk by its name.
    pub fn desk(&self, name: &str) -> Option<DeskRow>
        ensures { Matches IsDeskAnswer (desk_in (world_kept self.now) name.now) result }
    {
        let Some(at) = desk_at(&self.desks, name) else {
            return None;
        };
        let row = &self.desks[at];
        Some(DeskRow {
            digest: row.digest,
            next: row.next,
        })
    }

    /// Finds the kind and the capacity of a published code.
    pub fn capacity(&self, code: &str) -> Option<(Kind, u64)>
        ensures { Matches IsCapacityAnswer
            (code_in (world_kept self.now).published code.now) result }
    {
        let Some(at) = code_at(&self.published, code) else {
            return None;
        };
        let row = &self.published[at];
        Some((row.kind, row.capacity))
    }

    /// Lists the published codes in ascending order.
    pub fn capacities(&self, alloc: Global) -> Result<Vec<CodeRow>, AllocError>
        ensures { IfOk result (λ rows. ListsCodes (world_kept self.now).published rows.items) }
    {
        list_codes(alloc, &self.published)
    }

    /// Lists the plans of a desk by number.
    pub fn plans(&self, alloc: Global, desk: &str) -> Result<Vec<PlanEntry>, AllocError>
        ensures { IfOk result
            (λ rows. ListsPlans (view desk.now (world_kept self.now)).plans rows.items) }
    {
        list_plans(alloc, &self.plans, desk)
    }

    /// Finds a plan of a desk, with its binds and lags.
    pub fn plan(&self, alloc: Global, desk: &str, n: u64) -> Result<Option<PlanRow>, AllocError>
        ensures { IfOk result
            (Matches (IsPlanAnswer (view desk.now (world_kept self.now)))
            (find (has_number n) (view desk.now (world_kept self.now)).plans)) }
    {
        let Some(at) = plan_at(&self.plans, desk, n) else {
            return Ok(None);
        };
        let row = &self.plans[at];
        let binds = list_binds(alloc, &self.binds, desk, n)?;
        let lags = list_lags(alloc, &self.lags, desk, n)?;
        let plan = copy_plan(alloc, row, binds, lags)?;
        Ok(Some(plan))
    }
}
