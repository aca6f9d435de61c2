//! Reports on schedules: starts read from a text, the slack of each activity, a chain of activities
//! without slack, makespans, and verdicts in a sentence.
#![tactic(auto)]

mod chain;
mod id_rows;
mod id_sheets;
mod json_table;
mod makespans;
mod sheet;
mod slack;
mod start_numbers;
mod starts;
mod verdict_text;
mod waits;

pub use chain::tight_chain;
pub use id_sheets::first_behind;
pub use makespans::{makespan_of, shop_makespan_of};
pub use slack::{SlackFault, schedule_slack};
pub use starts::{read_id_starts_text, read_shop_starts_text, read_starts_text};
pub use verdict_text::{push_sentence, push_shop_sentence};
pub use waits::{is_wait, only_predecessor};
