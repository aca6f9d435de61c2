//! The tree of a project's words with a count of its pushes.

use crate::{Branching, Pushes};
use plan_sgs::{Instance, ProjectTree};
use std::alloc::{AllocError, Global};
use std::marker::Model;

/// The tree of a project's words with the count of its pushes. Only contracts can see the count.
#[derive(Drop)]
pub struct CountedProjectTree<'a> {
    tree: ProjectTree<'a>,
    pushes: Pushes,
}

impl<'a> Model for CountedProjectTree<'a> {
    ghost use Rattle.plan_exact.specs.ProjectTrees.{CountedProject};
    ghost use Rattle.plan_sgs.specs.Instances.{IsInstance};

    ghost Value = { CountedProject };

    ghost view = { λ t.
        record { instance = t.tree.instance; word = t.tree.word; pushes = t.pushes.count } };

    ghost invariant = { λ t. IsInstance t.tree.instance };
}

impl<'a> CountedProjectTree<'a> {
    ghost use Rattle.std.specs.Prelude.{◌≡◌, [], IfOk};

    /// Returns the tree of a project at the empty word.
    pub fn new(
        alloc: Global,
        instance: &'a Instance<'a>,
    ) -> Result<CountedProjectTree<'a>, AllocError>
        ensures { IfOk result (λ tree.
            tree ≡ record { instance = instance.now; word = []; pushes = 0 }) }
    {
        // The proof needs the invariant of the instance, which this call states.
        let _network = instance.network();
        Ok(CountedProjectTree {
            tree: ProjectTree::new(alloc, instance)?,
            pushes: Pushes::new(),
        })
    }
}

impl<'a> Branching for CountedProjectTree<'a> {
    ghost use Rattle.plan_exact.specs.Laws.{KeepsLaws};
    ghost use Rattle.plan_exact.specs.ProjectTrees.{project_tree};

    ghost is_valid = { λ t. KeepsLaws (project_tree t.instance) };

    ghost tree = { λ t. project_tree t.instance };

    ghost word = { λ t. t.word };

    ghost pushes = { λ t. t.pushes };

    fn known(&self) {
        let _ = &self.tree;
    }

    #[tactic(auto, unfolding(crate::specs::ProjectTrees::project_tree))]
    fn push(&mut self, letter: u32) -> Result<(), AllocError> {
        self.tree.push(letter)?;
        self.pushes = self.pushes.raised();
        Ok(())
    }

    fn pop(&mut self) {
        self.tree.pop();
    }

    #[tactic(auto, unfolding(crate::specs::ProjectTrees::project_tree))]
    fn letters(&self, list: &mut Vec<u32>) -> Result<(), AllocError> {
        self.tree.letters(list)
    }

    #[tactic(auto, unfolding(crate::specs::ProjectTrees::project_tree))]
    fn bound(&self) -> u64 {
        self.tree.bound()
    }

    #[tactic(auto, unfolding(crate::specs::ProjectTrees::project_tree))]
    fn full(&self) -> bool {
        self.tree.full()
    }

    #[tactic(auto, unfolding(crate::specs::ProjectTrees::project_tree))]
    fn makespan(&self) -> u64 {
        self.tree.makespan()
    }

    ghost letters_rise = { λ t valid. valid.rise };

    ghost words_are_finite = { λ t valid. valid.finite };

    ghost bound_holds = { λ t valid. valid.bounded };
}
