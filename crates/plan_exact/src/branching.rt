//! Trait of the trees that [`search`](crate::search) explores.

ghost use Rattle.std.specs.Prelude.{◌≡◌, ℕ, ◌+◌, ◌<◌, List, [], ◌∷◌, ◌++◌, length, Contains, OnOk};
ghost use Rattle.std.specs.Prelude.{OnErr, IsTrue, nat_lt};
ghost use Rattle.plan_exact.specs.Words.{WordTree};
ghost use Rattle.plan_exact.specs.Laws.{LettersRise, WordsAreFinite, BoundHolds};

use std::alloc::AllocError;

/// A tree of words, at one of its words. A letter is the number, from 1, of the job of a shop or
/// the activity of a project that is placed next.
pub trait Branching {
    /// The invariant of the type. The laws are required only of valid values.
    ghost is_valid: { Self → Type 0 };

    /// The tree as contracts see it.
    ghost tree: { Self → WordTree };

    /// The current word.
    ghost word: { Self → List ℕ };

    /// The number of successful pushes so far. No code can read it.
    ghost pushes: { Self → ℕ };

    /// Gives a proof the fact that the value is valid. Does nothing at run time.
    fn known(&self)
        ensures { is_valid self.now };

    /// Appends a letter to the word.
    fn push(&mut self, letter: u32) -> Result<(), AllocError>
        requires { Contains ((tree self.old).letters (word self.old)) letter }
        ensures tree { tree self.new ≡ tree self.old }
        ensures ok { OnOk result (word self.new ≡ word self.old ++ letter ∷ []) }
        ensures count { OnOk result (pushes self.new ≡ pushes self.old + 1) }
        ensures err { OnErr result (word self.new ≡ word self.old) }
        ensures err_count { OnErr result (pushes self.new ≡ pushes self.old) };

    /// Removes the last letter of the word.
    fn pop(&mut self)
        requires { 0 < length (word self.old) }
        ensures tree { tree self.new ≡ tree self.old }
        ensures word { (u : List ℕ) (a : ℕ) → word self.old ≡ u ++ a ∷ [] → word self.new ≡ u }
        ensures count { pushes self.new ≡ pushes self.old };

    /// Appends the letters that may follow to the list, so that one list can serve all words of a
    /// search. If memory runs out, only some of them may have been appended.
    fn letters(&self, list: &mut Vec<u32>) -> Result<(), AllocError>
        ensures { OnOk result (list.new.items ≡ list.old.items
            ++ (tree self.now).letters (word self.now)) };

    /// Returns the lower bound of the word, in whole time units.
    fn bound(&self) -> u64
        ensures { result ≡ (tree self.now).bound (word self.now) };

    /// Tests whether the lower bound of the word is below a limit, in whole time units.
    fn is_open(&self, limit: u64) -> bool
        ensures { result ≡ nat_lt ((tree self.now).bound (word self.now)) limit }
    {
        self.bound() < limit
    }

    /// Tests whether the word is full.
    fn full(&self) -> bool
        ensures { result ≡ (tree self.now).full (word self.now) };

    /// Returns the makespan of a full word, in whole time units.
    fn makespan(&self) -> u64
        requires { IsTrue ((tree self.now).full (word self.now)) }
        ensures { result ≡ (tree self.now).makespan (word self.now) };

    /// The letters after each word are in rising order.
    ghost letters_rise: { (x : Self) → is_valid x → LettersRise (tree x) };

    /// No word is longer than the tree is deep.
    ghost words_are_finite: { (x : Self) → is_valid x → WordsAreFinite (tree x) };

    /// The bound of a word is at most the makespan of every full word that begins with it.
    ghost bound_holds: { (x : Self) → is_valid x → BoundHolds (tree x) };
}
