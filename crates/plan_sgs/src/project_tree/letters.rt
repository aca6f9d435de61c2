//! Letters that may follow a word.

ghost use Rattle.std.specs.Prelude.{◌≡◌, ◌<◌, ◌++◌, OnOk};
ghost use Rattle.plan_sgs.specs.Instances.{problem_of};
ghost use Rattle.plan_sgs.specs.ProjectWords as words;
ghost use Rattle.plan_sgs.specs.Rules as rules;

use crate::project_tree::ProjectTree;
use std::alloc::AllocError;

impl<'a> ProjectTree<'a> {
    // Tests whether the activity at an index is eligible: unplaced, with all predecessors placed.
    fn may_follow(&self, place: usize) -> bool
        requires { place < words.depth_of self.now.instance }
        ensures { result ≡ rules.is_eligible (problem_of self.now.instance)
            (rules.places self.now.word) place }
    {
        self.placed[place].is_none() && self.waits[place] == 0
    }

    /// Appends the letters that may follow to the list, so that one list can serve all words of a
    /// search. If memory runs out, only some of them may have been appended.
    pub fn letters(&self, list: &mut Vec<u32>) -> Result<(), AllocError>
        ensures { OnOk result (list.new.items
            ≡ list.old.items ++ words.letters_after self.now.instance self.now.word) }
    {
        for i in 0..self.placed.len() {
            if self.may_follow(i) {
                list.push(i as u32 + 1)?;
            }
        }
        Ok(())
    }
}
