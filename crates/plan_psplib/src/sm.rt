//! The `.sm` format of PSPLIB: the head, the sections and their project.

mod document;
mod head;
mod precedence;
mod project;
mod requests;
mod sections;

pub use project::{ProjectDoc, read_sm};
pub use requests::GREATEST_AMOUNT;
