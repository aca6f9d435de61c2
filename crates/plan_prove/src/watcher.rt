//! Watchers of the progress of a search.

ghost use Rattle.plan_prove.specs.Progress.{Progress, Hears, HearsNothing};

/// A watcher receives reports on the progress of a search, can end it, and receives a call at its
/// end.
pub trait Watcher {
    /// The reports that it is known to have received.
    ghost was_told: { Self → Progress → Type 0 };

    /// Reports the best makespan so far, a lower bound of all makespans, and the number of visited
    /// nodes.
    fn tell(&mut self, best: u64, lower: u64, nodes: u64)
        ensures { Hears (was_told self.old) (was_told self.new)
            (record { best = best; lower = lower; nodes = nodes }) };

    /// Returns whether the search should end now.
    fn is_late(&mut self) -> bool
        ensures { HearsNothing (was_told self.old) (was_told self.new) };

    /// Ends the reports: the search is over.
    fn end(&mut self)
        ensures { HearsNothing (was_told self.old) (was_told self.new) };
}

/// A watcher that ignores all reports and ends no search.
#[derive(Drop)]
pub struct Unwatched;

impl Watcher for Unwatched {
    ghost was_told = { λ _ _. ⊥ };

    fn tell(&mut self, _best: u64, _lower: u64, _nodes: u64) {}

    fn is_late(&mut self) -> bool {
        false
    }

    fn end(&mut self) {}
}
