//! The errors of commands as values, their lines, their explanation and their hints; the bytes that
//! a command reads and writes.
#![tactic(auto)]

mod bytes;
mod codes;
mod context;
mod explanation;
mod fault;
mod hints;
mod json;
mod parts;
mod refusal;

pub use bytes::{read_file, write_text};
pub use codes::Code;
pub use context::{About, Contents, Context};
pub use explanation::{explain_run, explained, explanation_text};
pub use fault::CliFault;
pub use hints::{code_hint, hint, masked};
pub use json::error_json;
pub use parts::{Key, Part};
pub use refusal::{Refusal, refuse, refuse_words};
