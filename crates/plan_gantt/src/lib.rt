//! The exact texts of tables, charts and errors, defined by the values that they show.
#![tactic(auto)]

mod best;
mod calendar_faults;
mod charts;
mod column;
mod dates;
mod days;
mod exact_faults;
mod faults;
mod interval;
mod schedule_faults;
mod schedules;
mod shop_charts;
mod shop_days;
mod shop_faults;
mod shops;

pub use best::{best_project_text, best_text};
pub use calendar_faults::{calendar_fault_text, missing_calendar};
pub use charts::{chart, chart_unit, push_cells, push_unit};
pub use dates::date_table;
pub use days::{DaysFault, calendar_table};
pub use exact_faults::exact_fault_text;
pub use faults::file_fault_text;
pub use interval::Interval;
pub use plan_calendar::{Calendar, CalendarFault};
pub use schedule_faults::schedule_fault_text;
pub use schedules::schedule_table;
pub use shop_charts::shop_chart;
pub use shop_days::shop_calendar_table;
pub use shop_faults::shop_fault_text;
pub use shops::shop_table;
