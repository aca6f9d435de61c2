//! The verdict on starts of a week.

use plan_week::Overload;

/// The way in which an activity misses its dates. If several apply, it is the first one.
#[derive(Debug, Clone, Copy, Drop)]
pub enum Miss {
    /// It starts before today, which is `day`.
    Past { day: u32 },
    /// It starts before its earliest start, which is `date`.
    Early { date: u32 },
    /// It starts at `instant`, and not at its appointment `date`.
    Moved { instant: u32, date: u32 },
}

/// The first violation of starts of a week, or that they are a plan. Activities and resources are
/// numbered from 0.
#[derive(Debug, Clone, Copy, Drop)]
pub enum WeekVerdict {
    /// This activity misses its dates. No activity before it violates anything.
    Misplaced { activity: u32, miss: Miss },
    /// This activity starts before the predecessor ends, or before the lag after its end is over. It
    /// is the first activity that violates anything, and its first such predecessor.
    Broken { activity: u32, predecessor: u32 },
    /// Needs and absences together are above the capacity. The instant is the first such one from
    /// today on, and the resource is the first such one at it.
    Over(Overload),
    /// The starts are a plan of the week.
    Feasible,
}
