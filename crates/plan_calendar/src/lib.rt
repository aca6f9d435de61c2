//! The calendar of working days: a first date, the weekdays on which work is done, and holidays.
#![tactic(auto)]

mod calendar;
mod clock;
mod days_off;
mod first_date;
mod hours;
mod marks;
mod weekdays;
mod weeks;

pub use calendar::{Calendar, CalendarFault};
pub use clock::{push_clock, push_time, shown_moment};
pub use days_off::MOST_HOLIDAYS;
pub use first_date::date_in;
pub use hours::{Hours, HoursFault};
pub use weekdays::{shown_date, weekday_name};
