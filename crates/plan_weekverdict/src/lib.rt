//! Verdicts on starts of a week: the first activity that misses a date or starts before a predecessor
//! ends, else the first overload, else feasible.
#![tactic(auto)]

mod arcs;
mod check;
mod dates;
mod laws;
mod pins;
mod starts;
mod state;
mod verdict;

pub use check::check_week;
pub use laws::{at_most_one_week_verdict, plans_have_no_violation};
pub use starts::all_starts;
pub use state::is_open;
pub use verdict::{Miss, WeekVerdict};
