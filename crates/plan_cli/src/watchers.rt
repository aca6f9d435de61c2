//! Watchers of searches: of `plan prove` by nodes, of `plan solve` by conflicts. Watchers of the
//! lists that are read.

pub use plan_prove::Watcher as ProofWatcher;
pub use plan_solve::{Log, Unlogged, Watcher as SolveWatcher};

/// A watcher of the lists that tasks read.
pub trait NoteWatcher {
    /// Is told the line of notes on a list, before the text for the list is written.
    fn note(&mut self, line: String);
}

/// A watcher that ignores all reports and ends no search.
#[derive(Drop)]
pub struct Unwatched;

impl ProofWatcher for Unwatched {
    ghost was_told = { λ _ _. ⊥ };

    fn tell(&mut self, _best: u64, _lower: u64, _nodes: u64) {}

    fn is_late(&mut self) -> bool {
        false
    }

    fn end(&mut self) {}
}

impl SolveWatcher for Unwatched {
    ghost was_told = { λ _ _. ⊥ };

    fn tell(&mut self, _best: u64, _lower: u64, _conflicts: u64) {}

    fn is_late(&mut self) -> bool {
        false
    }

    fn end(&mut self) {}
}

impl NoteWatcher for Unwatched {
    fn note(&mut self, _line: String) {}
}
