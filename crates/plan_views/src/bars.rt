//! The rows of a Gantt chart.

ghost use Rattle.std.specs.Prelude.{◌≤◌};
ghost use Rattle.plan_gantt.specs.Limits.{latest_end};

/// The numbers of a step of a job shop: its job, and its number in the job, both from 1.
#[derive(Clone, Copy, Debug, PartialEq, Eq)]
pub struct StepNumber {
    pub job: u32,
    pub step: u32,
}

/// A bar: its first instant and the instant after its last one, in whole time units.
#[derive(Debug, Drop)]
pub struct Bar {
    pub start: u64,
    pub end: u64,
    /// The step, if the row is that of a machine.
    pub step: Option<StepNumber>,
    ghost forward: { start ≤ end },
    ghost limit: { end ≤ latest_end },
}

/// A row: the number of its activity or machine, and its bars.
#[derive(Debug, Drop)]
pub struct ChartRow {
    pub number: u32,
    pub bars: Vec<Bar>,
}
