//! Watchers of a search, which receive its progress.

ghost use Rattle.plan_solve.specs.Progress.{Progress, Hears, HearsNothing};

/// A watcher of a search. It receives the progress from time to time and the end, and can end it.
pub trait Watcher {
    /// That it was told this, as far as is known.
    ghost was_told: { Self → Progress → Type 0 };

    /// The best makespan so far, a lower bound of all makespans, and how many conflicts there were.
    fn tell(&mut self, best: u64, lower: u64, conflicts: u64)
        ensures { Hears (was_told self.old) (was_told self.new)
            (record { best = best; lower = lower; conflicts = conflicts }) };

    /// Whether the search should end now.
    fn is_late(&mut self) -> bool
        ensures { HearsNothing (was_told self.old) (was_told self.new) };

    /// The search is over.
    fn end(&mut self)
        ensures { HearsNothing (was_told self.old) (was_told self.new) };
}

/// Nobody, who never ends a search.
#[derive(Drop)]
pub struct Unwatched;

impl Watcher for Unwatched {
    ghost was_told = { λ _ _. ⊥ };

    fn tell(&mut self, _best: u64, _lower: u64, _conflicts: u64) {}

    fn is_late(&mut self) -> bool {
        false
    }

    fn end(&mut self) {}
}
