//! A list of activities as it is today.

ghost use Rattle.std.specs.Prelude.{◌≡◌, ◌<◌, ◌^◌, length};

use plan_kernel::{Absence, Arc};

/// The state of an activity today.
#[derive(Clone, Copy, Drop)]
pub enum State {
    /// It has neither begun nor ended. It starts at `earliest` or later, and exactly at `fixed` if
    /// it has an appointment.
    Open { earliest: u32, fixed: Option<u32> },
    /// It began, and lasts for `remaining` from today on.
    Begun { began: u32, remaining: u32 },
    /// It ended.
    Done { ended: u32 },
}

/// The activities of a week, the resources, and the absences. Activities, resources and instants
/// are numbered from 0.
#[derive(Drop)]
pub struct Week {
    /// How long each activity lasts in whole.
    pub durations: Vec<u32>,
    pub arcs: Vec<Arc>,
    /// For each activity its need of each resource.
    pub needs: Vec<Vec<u32>>,
    /// How much there is of each resource.
    pub capacities: Vec<u64>,
    /// The state of each activity.
    pub states: Vec<State>,
    /// The wished end of each activity, if there is one.
    pub dues: Vec<Option<u32>>,
    /// The missing amounts of resources. Absences of one resource add up.
    pub absences: Vec<Absence>,
    /// The instant from which on is planned.
    pub today: u32,
    ghost few: { length durations.items < 2 ^ 32 },
    ghost kinds: { length capacities.items < 2 ^ 32 },
    ghost whole: { length states.items ≡ length durations.items },
}
