//! The pages of plans, each built from the rows that a book returned.

mod best;
mod by_rule;
mod capacities;
mod charts;
mod dates;
mod days;
mod scheduled;
mod schedules;

pub(crate) use best::best_page;
pub(crate) use by_rule::{RulePage, rule_page};
pub(crate) use dates::dates_page;
