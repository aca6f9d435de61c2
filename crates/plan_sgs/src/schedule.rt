//! Schedules.

/// The starts of all activities and the makespan, in whole time units.
#[derive(Debug, Drop)]
pub struct Schedule {
    /// The start of each activity, in the order of their numbers.
    pub starts: Vec<u64>,
    /// The greatest end of an activity.
    pub makespan: u64,
}
