//! The test of the plans of an untrusted database, which keeps their numbers and kinds.

ghost use Rattle.std.specs.Prelude.{◌≡◌, ◌++◌, ◌∷◌, [], List, IfOk, MatchOption};
ghost use Rattle.std.specs.Bool.{MatchBool};
ghost use Rattle.plan_rows.specs.World.{Plan};
ghost use Rattle.plan_rows.specs.Rules.{IsPlanRow, IsWorld};
ghost use Rattle.plan_rows.specs.Tables.{world_beside, plan_kept};
ghost use Rattle.plan_store.specs.KeptPlans.{HoldsPlans};
ghost use Rattle.plan_store.specs.PlanReview.{HasSeen};

use crate::kept_plans::KeptPlans;
use plan_rows::{Beside, PlanEntry, PlanRecord, Review};
use std::alloc::{AllocError, Global};

/// A test of plans, one at a time, and the numbers and kinds of those that it has read.
#[derive(Drop)]
pub struct PlanTest<'a> {
    review: Review<'a>,
    kept: KeptPlans,
}

impl<'a> PlanTest<'a> {
    /// Begins a test with these other rows.
    pub fn new(alloc: Global, beside: Beside<'a>) -> Result<PlanTest<'a>, AllocError>
        ensures fresh { IfOk result (HasSeen []) }
        ensures beside { IfOk result (λ test. test.review.beside ≡ beside.entry) }
    {
        let review = Review::new(alloc, beside)?;
        let kept = KeptPlans::new(alloc);
        Ok(PlanTest { review, kept })
    }

    /// Tests the next plan and returns whether it keeps the rules of rows.
    pub fn read(&mut self, row: &PlanRecord) -> Result<bool, AllocError>
        requires { (plans : List Plan) × HasSeen plans self.old }
        ensures same { self.new.review.beside ≡ self.old.review.beside }
        ensures told { (plans : List Plan) → HasSeen plans self.old → IfOk result
            (λ good. MatchBool good
            (IsPlanRow (plan_kept row.now)
            × HasSeen (plans ++ plan_kept row.now ∷ []) self.new)
            (IsPlanRow (plan_kept row.now) → ⊥)) }
    {
        if !self.review.read(row)? {
            return Ok(false);
        }
        let entry = PlanEntry {
            n: row.n,
            kind: row.kind,
        };
        self.kept.push(row.desk.as_str(), entry)?;
        Ok(true)
    }

    /// Returns the kept plans, if the plans that were read and the other rows keep the rules of
    /// rows.
    pub fn finish(self) -> Result<Option<KeptPlans>, AllocError>
        ensures { (plans : List Plan) → HasSeen plans self.entry → IfOk result
            (λ found. MatchOption found
            (IsWorld (world_beside self.entry.review.beside plans) → ⊥)
            (λ kept. IsWorld (world_beside self.entry.review.beside plans)
            × HoldsPlans plans kept)) }
    {
        let PlanTest { review, kept } = self;
        if review.is_world()? {
            Ok(Some(kept))
        } else {
            Ok(None)
        }
    }
}
