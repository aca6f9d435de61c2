//! A line of progress on standard error, the time limit of a search, and the notes on a list.

use plan_cli::{NoteWatcher, ProofWatcher, SolveWatcher};
use std::io::IsTerminal;
use std::time::Instant;

/// A watcher of a search. It writes a line on standard error that is overwritten each time and
/// erased at the end of the search. A line that can't be written is skipped. It stops a search at
/// its time limit.
#[derive(Drop)]
pub(crate) struct ProgressLine<'a> {
    rt: &'a HostRuntime,
    is_shown: bool,
    has_terminal: bool,
    /// The time limit in seconds.
    limit: Option<u32>,
    start: Option<Instant>,
    /// The second of the last line, counted from the start.
    last: Option<u64>,
    /// The notes on the list that was read.
    notes: Option<String>,
}

impl<'a> ProgressLine<'a> {
    /// Returns a line that isn't written yet, without a time limit.
    pub fn new(rt: &HostRuntime) -> ProgressLine<'_> {
        ProgressLine::within(rt, None)
    }

    /// Returns a line that isn't written yet, with a time limit in seconds from now on.
    pub fn within(rt: &HostRuntime, limit: Option<u32>) -> ProgressLine<'_> {
        ProgressLine {
            rt,
            is_shown: false,
            has_terminal: rt.stderr().is_terminal(),
            limit,
            start: Instant::now(rt).ok(),
            last: None,
            notes: None,
        }
    }

    /// Prints the notes on the list that was read, if there are notes.
    pub fn print_notes(&self) {
        let rt = self.rt;
        if let Some(line) = &self.notes {
            let _ = eprintln!(rt; "{line}");
        }
    }

    // Returns how many whole seconds have passed; `None` if the clock can't be read.
    fn seconds(&self) -> Option<u64> {
        let start = self.start?;
        let now = Instant::now(self.rt).ok()?;
        Some(now.duration_since(start).as_secs())
    }

    // Writes the line at most once a second, and only on a terminal.
    fn show(&mut self, best: u64, lower: u64, count: u64, unit: &str) {
        let seconds = self.seconds();
        if !self.has_terminal || seconds == self.last {
            return;
        }
        let rt = self.rt;
        let time = seconds.unwrap_or(0);
        let _ = eprint!(rt; "\rbest {best}, lower bound {lower}, {count} {unit}, {time} s\x1b[K");
        self.is_shown = true;
        self.last = seconds;
    }

    // Whether the time limit has passed. A search with a time limit stops at once if the clock
    // can't be read.
    fn is_past_limit(&self) -> bool {
        let Some(limit) = self.limit else {
            return false;
        };
        match self.seconds() {
            Some(seconds) => seconds >= u64::from(limit),
            None => true,
        }
    }

    // Erases the line.
    fn erase(&mut self) {
        if self.is_shown {
            let rt = self.rt;
            let _ = eprint!(rt; "\r\x1b[K");
        }
        self.is_shown = false;
    }
}

impl<'a> NoteWatcher for ProgressLine<'a> {
    fn note(&mut self, line: String) {
        self.notes = Some(line);
    }
}

impl<'a> ProofWatcher for ProgressLine<'a> {
    ghost was_told = { λ _ _. ⊥ };

    fn tell(&mut self, best: u64, lower: u64, nodes: u64) {
        self.show(best, lower, nodes, "nodes");
    }

    fn is_late(&mut self) -> bool {
        self.is_past_limit()
    }

    fn end(&mut self) {
        self.erase();
    }
}

impl<'a> SolveWatcher for ProgressLine<'a> {
    ghost was_told = { λ _ _. ⊥ };

    fn tell(&mut self, best: u64, lower: u64, conflicts: u64) {
        self.show(best, lower, conflicts, "conflicts");
    }

    fn is_late(&mut self) -> bool {
        self.is_past_limit()
    }

    fn end(&mut self) {
        self.erase();
    }
}
