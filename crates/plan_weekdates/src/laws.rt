//! The law of instants and working days. The function does nothing.

ghost use Rattle.plan_weekdates.specs.InstantLaws.{DaysHaveTheirInstants};

/// The working day of an instant, as `Calendar::day` finds it, begins at that instant and ends at
/// the next one.
pub fn days_have_their_instants()
    ensures { DaysHaveTheirInstants }
{}
