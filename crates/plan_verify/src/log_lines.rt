//! The lines of a log, read in pieces.

use crate::fault::LogFault;
use plan_io::Source;
use std::alloc::{AllocError, Global};

/// How many bytes one read asks for.
const CHUNK: usize = 65_536;

/// The most bytes of a line.
const LONGEST_LINE: usize = 16_777_216;

/// The lines of a log. Only the bytes of one line, and those of the last read, are kept.
#[derive(Drop)]
pub struct LogLines {
    chunk: Vec<u8>,
    // the bytes of the chunk that are still to be used: from `start` up to `end`
    start: usize,
    end: usize,
    line: Vec<u8>,
    number: u64,
}

// Returns the index of the first line feed.
fn first_line_feed(bytes: &[u8]) -> Option<usize> {
    bytes.iter().position(|&byte| byte == b'\n')
}

impl LogLines {
    /// Returns the lines of a log from which nothing was read.
    pub fn new(alloc: Global) -> Result<LogLines, AllocError> {
        Ok(LogLines {
            chunk: vec![in alloc; 0u8; CHUNK]?,
            start: 0,
            end: 0,
            line: Vec::new(alloc),
            number: 0,
        })
    }

    /// Returns the last line that was read, without its line feed.
    pub fn text(&self) -> &[u8] {
        self.line.as_slice()
    }

    /// Returns the number of that line, counted from 1.
    pub fn number(&self) -> u64 {
        self.number
    }

    // Reads more bytes if none is left. Returns whether there are some.
    fn fill<R: Source>(&mut self, log: &mut R) -> Result<bool, LogFault> {
        if self.start < self.end {
            return Ok(true);
        }
        self.start = 0;
        self.end = 0;
        self.end = log.read(self.chunk.as_mut_slice())?;
        Ok(self.end > 0)
    }

    // Moves bytes to the line, up to its line feed. Returns whether the line is whole.
    fn take(&mut self) -> Result<bool, LogFault> {
        let end = self.end.min(self.chunk.len());
        let start = self.start.min(end);
        let rest = &self.chunk[start..end];
        let (count, is_whole) = match first_line_feed(rest) {
            Some(place) => (place.min(rest.len()), true),
            None => (rest.len(), false),
        };
        if self.line.len().saturating_add(count) > LONGEST_LINE {
            return Err(LogFault::Unreadable { line: self.number });
        }
        self.line.extend_from_slice(&rest[..count])?;
        self.start = start
            .saturating_add(count)
            .saturating_add(is_whole as usize);
        Ok(is_whole)
    }

    /// Reads the next line. Returns whether there is one. A line without a line feed can't be read.
    pub fn next<R: Source>(&mut self, log: &mut R) -> Result<bool, LogFault> {
        self.line.clear();
        self.number = self.number.saturating_add(1);
        for _ in 0..u64::MAX {
            if !self.fill(log)? {
                break;
            }
            if self.take()? {
                return Ok(true);
            }
        }
        if self.line.is_empty() {
            return Ok(false);
        }
        Err(LogFault::Unreadable { line: self.number })
    }
}
