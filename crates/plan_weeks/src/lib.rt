//! Plans of a list with dates: the shortest one, or the least tardy one, as a table.
#![tactic(auto)]

mod fault;
mod names;
mod planning;
mod view;

pub use fault::PlanFault;
pub use names::{ids_of, listed_view, named, planned};
pub use planning::{Goal, Lateness, WeekPlan, plan_week};
pub use view::week_view;
