//! Reads project files: the single-mode `.sm` texts of PSPLIB. Other readers use its lines, words
//! and numbers. It re-exports the names of plan_io.
#![tactic(auto)]

mod laws;
mod sm;
mod text;

pub use laws::errors_show;
pub use plan_io::{
    DeviceFault, InputError, MOST_CALLS, MemSink, MemSource, OutputError, Sink, Source, StdSink,
    StdSource, Tally, read_beyond, write_whole,
};
pub use sm::{GREATEST_AMOUNT, ProjectDoc, read_sm};
pub use text::{
    Fault, FileCode, FileFault, LONGEST_TEXT, Layout, Line, LineNumber, LineWord, Lines, ReadError,
    StreamWords, Words, check_text, end, expect, is_blank, is_number, next_duration, next_limited,
    next_number, next_row, number, trim, trim_end, trim_start, within,
};
