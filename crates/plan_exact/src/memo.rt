//! Cache of answers, so that the same question is not searched twice.

ghost use Rattle.std.specs.Prelude.{◌≡◌, ◌≢◌, ◌≤◌, ◌⊎◌, [], length, Contains, IfOk, IfErr, IfSome};
ghost use Rattle.std.specs.Prelude.{IfNone, OnOk, OnErr};
ghost use Rattle.std.specs.List.{AllPairs};
ghost use Rattle.plan_sgs.specs.Problem.{IsActive, IsShortest, makespan};
ghost use Rattle.plan_shop.specs.Shop.{problem_of};
ghost use Rattle.plan_sgs.specs.Instances as projects;
ghost use Rattle.plan_exact.specs.Solutions.{IsSolution, RefusesSolving};
ghost use Rattle.plan_exact.specs.ProjectSolutions.{IsProjectSolution, RefusesProject};
ghost use Rattle.plan_exact.specs.Memos.{Answers, asked_of_shop, asked_of_project, asked_by};
ghost use Rattle.plan_exact.specs.Memos.{Remembers};
ghost use Rattle.plan_exact.specs.declared.answer.Kind.TheVariants.{Optimal};

use crate::questions::Question;
use crate::{ExactFault, Solved, solve_project, solve_shop};
use lru::LruCache;
use plan_sgs::{Instance, Schedule};
use plan_shop::Shop;
use std::alloc::{AllocError, Global};
use std::marker::Model;
use std::num::NonZeroUsize;

/// The greatest number of cached answers.
pub const MOST_KEPT: usize = 64;

// Returns a copy of an answer.
fn copy_of(alloc: Global, solved: &Solved) -> Result<Solved, AllocError>
    ensures kind { IfOk result (λ copy. copy.kind ≡ solved.now.kind) }
    ensures starts { IfOk result (λ copy.
        copy.schedule.starts.items ≡ solved.now.schedule.starts.items) }
    ensures makespan { IfOk result (λ copy. copy.schedule.makespan ≡ solved.now.schedule.makespan) }
{
    let starts = Vec::from_slice(alloc, &solved.schedule.starts)?;
    Ok(Solved {
        kind: solved.kind,
        schedule: Schedule {
            starts,
            makespan: solved.schedule.makespan,
        },
    })
}

/// The answers to the last 64 questions. A question is a whole shop with a budget, or a project's
/// network, lags and needs with capacities and a budget. Contracts see the list of questions, the
/// most recent one first.
#[derive(Drop)]
pub struct Memo {
    alloc: Global,
    // The seed of the hash is fixed. Chosen inputs can make at most these 64 keys collide.
    kept: LruCache<Question, Solved>,
}

impl Model for Memo {
    ghost use Rattle.std.specs.Prelude.{List};
    ghost use Rattle.plan_exact.specs.Memos.{Asked, questions, IsMemo};

    ghost Value = { List Asked };

    ghost view = { λ m. questions m.kept.entries };

    ghost invariant = { λ m. IsMemo m.kept };
}

impl Memo {
    /// Returns an empty cache.
    pub fn new(alloc: Global) -> Result<Memo, AllocError>
        ensures { IfOk result (λ memo. memo ≡ []) }
    {
        let room = NonZeroUsize::new(MOST_KEPT).unwrap();
        let kept = LruCache::new(alloc, room)?;
        Ok(Memo { alloc, kept })
    }

    /// Returns the number of cached answers.
    pub fn len(&self) -> usize
        ensures count { result ≡ length self.now }
        ensures most { result ≤ 64 }
        // No question is kept twice.
        ensures once { AllPairs (λ a b. a ≢ b) self.now }
    {
        self.kept.len()
    }

    /// Answers as [`solve_shop`] does. The cached answer for the same shop and budget is returned
    /// if there is one. A new answer is cached if there is memory for it.
    pub fn solve(&mut self, shop: &Shop, budget: u64) -> Result<Solved, ExactFault>
        ensures solution { IfOk result (IsSolution shop.now budget) }
        ensures shortest { IfOk result (λ solved.
            solved.kind ≡ Optimal → IsShortest (problem_of shop.now) solved.schedule.starts.items) }
        ensures active { IfOk result (λ solved.
            IsActive (problem_of shop.now) solved.schedule.starts.items) }
        ensures makespan { IfOk result (λ solved. solved.schedule.makespan
            ≡ makespan (problem_of shop.now) solved.schedule.starts.items) }
        ensures refused { IfErr result (RefusesSolving shop.now budget) }
        // The questions stay the same if there is no memory to cache this one.
        ensures kept { OnOk result (Remembers self.old (asked_of_shop shop.now budget) self.new
            ⊎ (self.new ≡ self.old)) }
        ensures unchanged { OnErr result (self.new ≡ self.old) }
    {
        match Question::of_shop(self.alloc, shop, budget) {
            Ok(question) => self.shop_answer(question, shop, budget),
            Err(_) => solve_shop(self.alloc, shop, budget),
        }
    }

    /// Answers as [`solve_project`] does. The cached answer for the same network, lags, needs,
    /// capacities and budget is returned if there is one. A new answer is cached if there is memory
    /// for it.
    pub fn solve_project(&mut self, instance: &Instance, budget: u64) -> Result<Solved, ExactFault>
        ensures solution { IfOk result (IsProjectSolution instance.now budget) }
        ensures shortest { IfOk result (λ solved. solved.kind ≡ Optimal
            → IsShortest (projects.problem_of instance.now) solved.schedule.starts.items) }
        ensures active { IfOk result (λ solved.
            IsActive (projects.problem_of instance.now) solved.schedule.starts.items) }
        ensures makespan { IfOk result (λ solved. solved.schedule.makespan
            ≡ makespan (projects.problem_of instance.now) solved.schedule.starts.items) }
        ensures refused { IfErr result (RefusesProject instance.now budget) }
        // The questions stay the same if there is no memory to cache this one.
        ensures kept { OnOk result
            (Remembers self.old (asked_of_project instance.now budget) self.new
            ⊎ (self.new ≡ self.old)) }
        ensures unchanged { OnErr result (self.new ≡ self.old) }
    {
        match Question::of_project(self.alloc, instance, budget) {
            Ok(question) => self.project_answer(question, instance, budget),
            Err(_) => solve_project(self.alloc, instance, budget),
        }
    }

    // Returns the answer to a question on a shop, cached or new.
    fn shop_answer(
        &mut self,
        question: Question,
        shop: &Shop,
        budget: u64,
    ) -> Result<Solved, ExactFault>
        requires { asked_by question ≡ asked_of_shop shop.now budget }
        ensures solution { IfOk result (IsSolution shop.now budget) }
        ensures refused { IfErr result (RefusesSolving shop.now budget) }
        // A cached question moves to the front. Only a new one can fail to be cached.
        ensures kept { OnOk result (Remembers self.old (asked_of_shop shop.now budget) self.new
            ⊎ ((Contains self.old (asked_of_shop shop.now budget) → ⊥) × (self.new ≡ self.old))) }
        ensures unchanged { OnErr result (self.new ≡ self.old) }
    {
        if let Some(solved) = self.recall(&question)? {
            return Ok(solved);
        }
        let solved = solve_shop(self.alloc, shop, budget)?;
        // The answer is returned even if there is no memory to cache it.
        let _ = self.keep(question, &solved);
        Ok(solved)
    }

    // Returns the answer to a question on a project, cached or new.
    fn project_answer(
        &mut self,
        question: Question,
        instance: &Instance,
        budget: u64,
    ) -> Result<Solved, ExactFault>
        requires { asked_by question ≡ asked_of_project instance.now budget }
        ensures solution { IfOk result (IsProjectSolution instance.now budget) }
        ensures refused { IfErr result (RefusesProject instance.now budget) }
        // A cached question moves to the front. Only a new one can fail to be cached.
        ensures kept { OnOk result
            (Remembers self.old (asked_of_project instance.now budget) self.new
            ⊎ ((Contains self.old (asked_of_project instance.now budget) → ⊥)
            × (self.new ≡ self.old))) }
        ensures unchanged { OnErr result (self.new ≡ self.old) }
    {
        if let Some(solved) = self.recall(&question)? {
            return Ok(solved);
        }
        let solved = solve_project(self.alloc, instance, budget)?;
        // The answer is returned even if there is no memory to cache it.
        let _ = self.keep(question, &solved);
        Ok(solved)
    }

    // Returns a copy of the cached answer to a question, and makes it the most recently used.
    fn recall(&mut self, question: &Question) -> Result<Option<Solved>, AllocError>
        ensures found { IfOk result (λ found. IfSome found (Answers (asked_by question.now))) }
        ensures moved { IfOk result (λ found.
            IfSome found (λ _. Remembers self.old (asked_by question.now) self.new)) }
        ensures missing { IfOk result (λ found.
            IfNone found ((Contains self.old (asked_by question.now) → ⊥)
            × (self.new ≡ self.old))) }
        ensures unchanged { OnErr result (self.new ≡ self.old) }
    {
        let Some(solved) = self.kept.peek(question) else {
            return Ok(None);
        };
        let copy = copy_of(self.alloc, solved)?;
        self.kept.promote(question);
        Ok(Some(copy))
    }

    // Caches a copy of an answer.
    fn keep(&mut self, question: Question, solved: &Solved) -> Result<(), AllocError>
        requires new { Contains self.old (asked_by question) → ⊥ }
        requires answered { Answers (asked_by question) solved.now }
        ensures ok { OnOk result (Remembers self.old (asked_by question) self.new) }
        ensures err { OnErr result (self.new ≡ self.old) }
    {
        let copy = copy_of(self.alloc, solved)?;
        self.kept.put(question, copy)?;
        Ok(())
    }
}
