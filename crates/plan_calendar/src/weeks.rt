//! Marked days of the week, counted by whole weeks.

ghost use Rattle.std.specs.Prelude.{◌≡◌, ◌*◌, ◌+◌, ◌<◌, ◌≤◌, length};
ghost use Rattle.plan_calendar.specs.WorkingDay.{IsWeek};
ghost use Rattle.plan_calendar.specs.declared.weeks.TheConstants.{MOST_DAYS};
ghost use Rattle.plan_calendar.specs.Weeks.{mark_after, marks_before, IsMarkedAfter};

/// The number of days from the first date, -9999-01-01, to the last one, 9999-12-31.
pub const MOST_DAYS: u64 = 7_304_483;

// Returns the mark of the day `days` days after the weekday, within a week.
#[tactic(auto, unfolding(crate::specs::Weeks::mark_after))]
pub fn mark_at(marks: &[bool], weekday: u64, days: u64) -> bool
    requires seven { length marks.now ≡ 7 }
    requires weekday { weekday < 7 }
    requires days { days < 7 }
    ensures { result ≡ mark_after marks.now weekday days }
{
    marks[((weekday + days) % 7) as usize]
}

// Returns the number of marked days among the first `end` days of a week.
#[tactic(auto, using(crate::proofs::WeekLemmas::none_before, crate::proofs::WeekLemmas::one_more, crate::proofs::WeekLemmas::at_most_days))]
fn marks_until(marks: &[bool], weekday: u64, end: u64) -> u64
    requires seven { length marks.now ≡ 7 }
    requires weekday { weekday < 7 }
    requires end { end ≤ 7 }
    ensures count { result ≡ marks_before marks.now weekday end }
    ensures few { result ≤ end }
{
    let mut count = 0;
    for days in 0..end {
        if mark_at(marks, weekday, days) {
            count += 1;
        }
    }
    count
}

// Returns the number of marked days of a week.
fn marks_of_week(marks: &[bool], weekday: u64) -> u64
    requires week { IsWeek marks.now }
    requires weekday { weekday < 7 }
    ensures count { result ≡ marks_before marks.now weekday 7 }
    ensures some { 0 < result }
    ensures few { result ≤ 7 }
{
    marks_until(marks, weekday, 7)
}

// Returns the number of marked days among the first `days` days from the weekday on.
pub fn count_marked(marks: &[bool], weekday: u64, days: u64) -> u64
    requires week { IsWeek marks.now }
    requires weekday { weekday < 7 }
    requires limit { days ≤ MOST_DAYS }
    ensures { result ≡ marks_before marks.now weekday days }
{
    days / 7 * marks_of_week(marks, weekday) + marks_until(marks, weekday, days % 7)
}

// Returns the marked day of a week, counted from the weekday on, with `before` marked days before
// it.
#[tactic(auto, using(crate::proofs::WeekLemmas::none_before, crate::proofs::WeekLemmas::one_more))]
fn day_of_week(marks: &[bool], weekday: u64, before: u64) -> u64
    requires week { IsWeek marks.now }
    requires weekday { weekday < 7 }
    requires before { before < marks_before marks.now weekday 7 }
    ensures found { IsMarkedAfter marks.now weekday before result }
    ensures within { result < 7 }
{
    let mut left = before;
    for days in 0..7u64 {
        if mark_at(marks, weekday, days) {
            if left == 0 {
                return days;
            }
            left -= 1;
        }
    }
    0
}

// Returns the marked day, counted from the weekday on, with exactly `t` marked days before it.
pub fn nth_marked(marks: &[bool], weekday: u64, t: u64) -> u64
    requires week { IsWeek marks.now }
    requires weekday { weekday < 7 }
    requires limit { t ≤ MOST_DAYS * 2 }
    ensures found { IsMarkedAfter marks.now weekday t result }
    ensures limit { result ≤ MOST_DAYS * 14 + 6 }
{
    let each_week = marks_of_week(marks, weekday);
    let days = day_of_week(marks, weekday, t % each_week);
    t / each_week * 7 + days
}
