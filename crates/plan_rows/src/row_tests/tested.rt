//! The rules of rows that concern the other tables.

ghost use Rattle.std.specs.Prelude.{◌≡◌, true, List, map};
ghost use Rattle.std.specs.List.{AllByRecursion};
ghost use Rattle.plan_rows.specs.declared.row_tests.other_rows.PlanSeen.{PlanSeen as Seen};
ghost use Rattle.plan_rows.specs.World as spec;
ghost use Rattle.plan_rows.specs.World.{Plan};
ghost use Rattle.plan_net.specs.Limits.{longest_lag};
ghost use Rattle.plan_rows.specs.Plans as plans;
ghost use Rattle.plan_rows.specs.Names.{is_from_to};
ghost use Rattle.plan_rows.specs.Rules as rules;
ghost use Rattle.plan_rows.specs.Books.{published_in};
ghost use Rattle.plan_rows.specs.Tables.{world_beside, desk_kept, head_seen, bind_kept, lag_kept};
ghost use Rattle.plan_rows.specs.RowTests.{Tells, ArePlaces, IsDeskOf, RowsAreGood};
ghost use Rattle.plan_rows.specs.PlanReview.{AreSeen};

use crate::kinds::{Kind, PlanKind};
use crate::limits::MOST_PLANS;
use crate::row_tests::other_rows::{Beside, PlanSeen};
use crate::row_tests::places::Places;
use crate::row_tests::rows::{is_desk_row, is_published_row};
use crate::rows::CodeRow;
use crate::tables::{BindRecord, DeskRecord, LagRecord};
use plan_net::LONGEST_LAG;

/// A row whose rules concern the other rows. The files of the plans aren't in memory.
pub trait Tested {
    /// The row keeps its rules.
    ghost keeps: { spec.World → Self → Type 0 };

    /// Returns whether it keeps its rules.
    fn is_good(&self, beside: &Beside<'_>, plans: &[PlanSeen], places: &Places<'_>) -> bool
        requires places { ArePlaces beside.now plans.now places.now }
        ensures { (known : List Plan) → AreSeen known plans.now
            → Tells result (keeps (world_beside beside.now known) self.now) };
}

impl Tested for CodeRow {
    ghost keeps = { λ w row. rules.is_published_row (published_in row) ≡ true };

    fn is_good(&self, _beside: &Beside<'_>, _plans: &[PlanSeen], _places: &Places<'_>) -> bool {
        is_published_row(self)
    }
}

impl Tested for DeskRecord {
    ghost keeps = { λ w row. IsDeskOf w (desk_kept row) };

    fn is_good(&self, _beside: &Beside<'_>, _plans: &[PlanSeen], places: &Places<'_>) -> bool {
        if !is_desk_row(self) {
            return false;
        }
        places.count_plans(self.desk.as_str()) <= MOST_PLANS
    }
}

impl Tested for PlanSeen {
    ghost keeps = { λ w row. rules.IsOwned w (head_seen row) };

    fn is_good(&self, beside: &Beside<'_>, _plans: &[PlanSeen], places: &Places<'_>) -> bool {
        match places.desk_at(self.desk.as_str()) {
            Some(at) => self.n < beside.desks[at].next,
            None => false,
        }
    }
}

fn is_place(kind: PlanKind, count: u64, place: u64) -> bool
    ensures { result ≡ plans.is_place kind count place }
{
    match kind {
        PlanKind::Project => 1 <= place && place <= count,
        PlanKind::Shop => place < count,
    }
}

fn is_taken(kind: PlanKind, code: Kind) -> bool
    ensures { result ≡ spec.same_kind code (spec.takes kind) }
{
    match kind {
        PlanKind::Project => matches!(code, Kind::Crew),
        PlanKind::Shop => matches!(code, Kind::Machine),
    }
}

// Returns whether a code is published with the kind that a plan can use.
fn has_code(beside: &Beside<'_>, places: &Places<'_>, kind: PlanKind, code: &str) -> bool
    requires { (seen : List Seen) × ArePlaces beside.now seen places.now }
    ensures { Tells result (rules.IsThereAnd
        (spec.code_in (map published_in beside.now.published.now) code.now)
        (λ row. spec.same_kind row.kind (spec.takes kind) ≡ true)) }
{
    match places.code_at(code) {
        Some(at) => is_taken(kind, beside.published[at].kind),
        None => false,
    }
}

impl Tested for BindRecord {
    ghost keeps = { λ w row. rules.IsBindRow w (bind_kept row) };

    fn is_good(&self, beside: &Beside<'_>, plans: &[PlanSeen], places: &Places<'_>) -> bool {
        let Some(at) = places.plan_at(self.desk.as_str(), self.n) else {
            return false;
        };
        let plan = &plans[at];
        if !is_place(plan.kind, plan.places, self.place) {
            return false;
        }
        has_code(beside, places, plan.kind, self.code.as_str())
    }
}

fn is_lag(lag: u64) -> bool
    ensures { result ≡ is_from_to 1 LONGEST_LAG lag }
{
    1 <= lag && lag <= LONGEST_LAG
}

impl Tested for LagRecord {
    ghost keeps = { λ w row. is_from_to 1 longest_lag (lag_kept row).lag ≡ true };

    fn is_good(&self, _beside: &Beside<'_>, _plans: &[PlanSeen], _places: &Places<'_>) -> bool {
        is_lag(self.lag)
    }
}

// Returns whether all rows of a table keep their rules.
fn all_good<T: Tested>(
    rows: &[T],
    beside: &Beside<'_>,
    plans: &[PlanSeen],
    places: &Places<'_>,
) -> bool
    requires places { ArePlaces beside.now plans.now places.now }
    ensures { (known : List Plan) → AreSeen known plans.now
        → Tells result (AllByRecursion (T.keeps (world_beside beside.now known)) rows.now) }
{
    for row in rows {
        if !row.is_good(beside, plans, places) {
            return false;
        }
    }
    true
}

/// Returns whether the rows of all tables keep their rules, except that lags are on arcs.
pub fn rows_are_good(beside: &Beside<'_>, plans: &[PlanSeen], places: &Places<'_>) -> bool
    requires places { ArePlaces beside.now plans.now places.now }
    ensures { (known : List Plan) → AreSeen known plans.now
        → Tells result (RowsAreGood (world_beside beside.now known)) }
{
    if !all_good(beside.published, beside, plans, places) {
        return false;
    }
    if !all_good(beside.desks, beside, plans, places) {
        return false;
    }
    if !all_good(plans, beside, plans, places) {
        return false;
    }
    if !all_good(beside.binds, beside, plans, places) {
        return false;
    }
    all_good(beside.lags, beside, plans, places)
}
