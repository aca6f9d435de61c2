//! Shortest schedules of projects with scarce resources and of job shops, as far as a search by
//! lazy clause generation finds and proves them.
#![tactic(auto)]

mod activity;
mod analysis;
mod arrays;
mod bounds;
mod derivation;
mod explanation;
mod fault;
mod lines;
mod literals;
mod log;
mod model;
mod orders;
mod plan_orders;
mod plans;
mod projects;
mod propagation;
mod proposals;
mod prover;
mod reduction;
mod restarts;
mod schedules;
mod search;
mod sessions;
mod shops;
mod solutions;
mod solvable;
mod stop;
mod timetable;
mod trail;
mod usage;
mod watcher;
mod watches;
mod windows;
mod work;

pub use fault::SolveFault;
pub use log::{Log, Unlogged};
pub use plans::{LATEST_COST, PlanAnswer, SolvedPlan, solve_plan, solve_plan_watched};
pub use projects::{solve, solve_logged, solve_watched};
pub use proposals::{first_starts, starts_by};
pub use sessions::Session;
pub use shops::{
    rule_solution, shop_session, solve_shop, solve_shop_from, solve_shop_logged, solve_shop_watched,
};
pub use solutions::{MOST_CONFLICTS, Solved};
pub use watcher::{Unwatched, Watcher};
