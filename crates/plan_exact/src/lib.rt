//! Exact search for a full word of least makespan in any tree of words that keeps the laws of
//! [`Branching`]. Also the best schedules of job shops and projects, and a bounded cache of
//! answers.
#![tactic(auto)]

mod answer;
mod branching;
mod budgets;
mod counted;
mod counted_project;
mod exploration;
mod fault;
mod laws;
mod memo;
mod project_laws;
mod project_solution;
mod pushes;
mod questions;
mod shop_laws;
mod shop_solution;

pub use answer::{Answer, Kind};
pub use branching::Branching;
pub use budgets::{begins_above_zero, parse_budget};
pub use counted::CountedTree;
pub use counted_project::CountedProjectTree;
pub use exploration::search;
pub use fault::ExactFault;
pub use laws::{best_is_first_least, pruning_keeps_least, words_are_listed};
pub use memo::{MOST_KEPT, Memo};
pub use project_laws::{found_is_shortest_project, projects_make_trees};
pub use project_solution::{MOST_SEARCHED_ACTIVITIES, solve_project};
pub use pushes::Pushes;
pub use shop_laws::{found_is_shortest, shops_make_trees};
pub use shop_solution::{GREATEST_BUDGET, MOST_STEPS, Solved, solve_shop};
