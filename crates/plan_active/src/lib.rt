//! The shared part of the searches for shortest schedules of job shops: active schedules in which
//! no step starts later than in a feasible list of starts, and a lower bound without a search.
#![tactic(auto)]

mod bounds;
mod shops;

pub use bounds::shop_bound;
pub use shops::active_shop_schedule;
