//! The work of a search between two looks at the clock.

/// After how much work a watcher is asked whether the search should end.
const WORK_BETWEEN: u64 = 200_000;

/// Counts the work of a search since its watcher was asked last: the bounds, literals, tasks and
/// instants that it visits. The count decides when propagation is interrupted to ask the watcher,
/// and never what propagation finds.
#[derive(Drop)]
pub struct Work {
    done: u64,
    is_held: bool,
}

impl Work {
    /// Returns a count of no work.
    pub fn new() -> Work {
        Work {
            done: 0,
            is_held: false,
        }
    }

    /// Adds work.
    pub fn add(&mut self, amount: usize) {
        self.done = self.done.saturating_add(amount as u64);
    }

    /// Adds the work at the instants from one to another.
    pub fn add_span(&mut self, first: u32, behind: u32) {
        self.add(behind.saturating_sub(first) as usize);
    }

    /// Returns whether the watcher should be asked.
    pub fn is_due(&self) -> bool {
        self.done >= WORK_BETWEEN && !self.is_held
    }

    /// Starts again from no work: the watcher was asked.
    pub fn restart(&mut self) {
        self.done = 0;
    }

    /// Sets whether the work can't be interrupted.
    pub fn hold(&mut self, is_held: bool) {
        self.is_held = is_held;
    }
}
