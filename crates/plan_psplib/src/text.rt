//! Texts of any format: lines, words, numbers, streams of words, and the errors of a file.

mod fault;
mod lines;
mod numbers;
mod plain;
mod streams;
mod tokens;
mod words;

pub use fault::{Fault, FileCode, FileFault, ReadError};
pub use lines::{Line, Lines, is_blank, trim, trim_end, trim_start};
pub use numbers::{is_number, number};
pub use plain::{LONGEST_TEXT, check_text};
pub use streams::{Layout, LineWord, StreamWords, next_row};
pub use tokens::{
    LineNumber, end, expect, limited, next_duration, next_limited, next_number, within,
};
pub use words::Words;
