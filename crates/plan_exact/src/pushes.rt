//! Count of pushes that only contracts can see.

ghost use Rattle.std.specs.Prelude.{◌≡◌, ◌+◌, ℕ};
ghost use Rattle.std.specs.Borrow.{ftrue};

use std::marker::Model;

/// The number of successful pushes of a tree. It has size 0, and no code can read it. A tree keeps
/// one for the clauses of [`Branching`](crate::Branching) on the count.
#[derive(Drop)]
pub struct Pushes {
    pub ghost count: { ℕ },
}

impl Model for Pushes {
    ghost also_owns = { λ _. ftrue };
}

impl Pushes {
    /// Returns the count 0.
    pub fn new() -> Pushes
        ensures { result.count ≡ 0 }
    {
        Pushes {}
    }

    /// Returns the count after one more push.
    pub fn raised(&self) -> Pushes
        ensures { result.count ≡ self.now.count + 1 }
    {
        Pushes {}
    }
}
