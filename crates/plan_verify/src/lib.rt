//! Checks logs of `plan solve --log`: each line goes through the calls of the clause kernel, so
//! that a wrong log can't show anything that is false.
#![tactic(auto)]

mod arcs;
mod fault;
mod log_lines;
mod numbers;
mod reasons;
mod replay;
mod texts;
mod verdict;
mod verifier;

pub use fault::{LogFault, VerifyFault};
pub use texts::{verify_shop_text, verify_text};
pub use verdict::{Verdict, verdict_text};
pub use verifier::verify;
