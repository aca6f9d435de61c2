//! Gantt charts as values.

ghost use Rattle.std.specs.Prelude.{◌≤◌};
ghost use Rattle.plan_gantt.specs.Limits.{latest_end};

use crate::bars::ChartRow;

/// The owner of the rows of a chart.
#[derive(Clone, Copy, Debug, PartialEq, Eq)]
pub enum Owner {
    Activity,
    Machine,
}

/// A Gantt chart: the makespan in whole time units, and a row for each activity or machine.
#[derive(Debug, Drop)]
pub struct Chart {
    pub makespan: u64,
    pub owner: Owner,
    pub rows: Vec<ChartRow>,
    ghost limit: { makespan ≤ latest_end },
}
