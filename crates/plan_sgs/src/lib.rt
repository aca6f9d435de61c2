//! Schedules of projects with scarce resources: serial generation, priority rules, the tree of
//! words for exact search, and a check of any list of starts.
#![tactic(auto)]

mod checks;
mod eligibility;
mod fault;
mod generation;
mod instance;
mod keys;
mod laws;
mod lists;
mod placement;
mod project_laws;
mod project_tree;
mod rule;
mod schedule;
mod verdict;
mod verdict_laws;

pub use checks::check;
pub use fault::SgsFault;
pub use generation::{serial, serial_list};
pub use instance::Instance;
pub use laws::{
    by_starts_is_no_longer, earliest_is_least, least_of_orders_is_shortest, rule_takes_first,
    serial_is_active, serial_is_no_later,
};
pub use project_laws::{
    bounds_are_meant, full_words_are_lists, project_bounds_hold, project_letters_rise,
    project_words_are_finite, project_words_reach_shortest,
};
pub use project_tree::ProjectTree;
pub use rule::Rule;
pub use schedule::Schedule;
pub use verdict::Verdict;
pub use verdict_laws::one_verdict_is_first;
