//! The work of a search between two looks at the clock.

/// After how much work a watcher is asked whether the search should end.
const WORK_BETWEEN: u64 = 200_000;

/// Counts the work of a search since its watcher was asked last: the rules that it applies, and the
/// pairs of steps of the machines that it bounds. The count decides when the watcher is asked, and
/// never what the search finds.
#[derive(Drop)]
pub struct Work {
    done: u64,
}

impl Work {
    /// Returns a count of no work.
    pub fn new() -> Work {
        Work { done: 0 }
    }

    /// Adds work.
    pub fn add(&mut self, amount: usize) {
        self.done = self.done.saturating_add(amount as u64);
    }

    /// Returns whether the watcher should be asked.
    pub fn is_due(&self) -> bool {
        self.done >= WORK_BETWEEN
    }

    /// Starts again from no work: the watcher was asked.
    pub fn restart(&mut self) {
        self.done = 0;
    }
}
