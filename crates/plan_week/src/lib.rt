//! Plans of a working week: what has begun or is done stays, appointments and absences are kept.
#![tactic(auto)]

mod answer;
mod dues;
mod input;
mod laws;
mod limit;
mod overload;
mod solving;
mod state;
mod tardiness;
mod tightening;
mod week;

pub use answer::{SolvedWeek, WeekAnswer};
pub use dues::{greatest_tardiness, latest_due, limited_input, tardiness_input, tardiness_of};
pub use input::input_of;
pub use laws::{limits_are_enough, overloaded_weeks_have_no_plan, plain_weeks_stay_the_same};
pub use limit::limit_of;
pub use overload::{Overload, first_overload};
pub use solving::solve_week;
pub use state::{end_of, makespan_of, state_of};
pub use tardiness::{SolvedTardiness, TardyAnswer, solve_tardiness};
pub use tightening::{Tightened, tighten};
pub use week::{State, Week};
