//! The numbers of rows of an office, and the digest of the text of all rows.
#![tactic(auto)]

mod lines;
mod summary;

pub use summary::{Summary, summary_of, summary_text};
