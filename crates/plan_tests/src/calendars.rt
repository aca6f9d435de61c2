//! Days after the last date of a calendar, which no file reaches.

use plan_gantt::{Calendar, CalendarFault};
use std::test::Fail;

#[test]
fn finds_no_day_beyond_the_last_date(rt: HostRuntime) -> Result<(), Fail> {
    let sundays = Calendar::new("2000-01-01", "0000001")?;
    for t in [417_420, 7_304_483, 7_304_484, u64::MAX] {
        assert_eq!(rt;
            sundays.day(t).err(),
            Some(CalendarFault::BeyondCalendar),
            "at {t}"
        );
    }
    Ok(())
}
