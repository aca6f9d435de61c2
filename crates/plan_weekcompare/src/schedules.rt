//! Schedules of activities with ids.

ghost use Rattle.std.specs.Prelude.{◌≡◌, ◌≤◌, ◌++◌, ◌∷◌, [], All, OnOk, length, map};
ghost use Rattle.plan_profile.specs.Usage.{IsInTime};
ghost use Rattle.plan_table.specs.Names.{name_of};
ghost use Rattle.plan_views.specs.IdComparisons.{id_starts};

use plan_table::NameLine;
use plan_views::IdSchedule;
use std::alloc::{AllocError, Global};

/// Activities with their ids and their starts. They are numbered from 1 on.
#[derive(Drop)]
pub(crate) struct WeekSchedule<'a> {
    pub ids: Vec<NameLine<'a>>,
    pub starts: Vec<u64>,
    ghost numbered: { All (λ id. id.number ≤ length starts.items) ids.items },
    ghost in_time: { All IsInTime starts.items },
}

impl<'a> WeekSchedule<'a> {
    /// Returns a schedule without activities.
    pub fn new(alloc: Global) -> WeekSchedule<'a>
        ensures ids { result.ids.items ≡ [] }
        ensures starts { result.starts.items ≡ [] }
    {
        WeekSchedule {
            ids: Vec::new(alloc),
            starts: Vec::new(alloc),
        }
    }

    /// Appends an activity with its start.
    #[tactic(auto, using(crate::proofs::RowLemmas::pushed_row))]
    pub fn push(&mut self, id: &'a [u8], start: u64) -> Result<(), AllocError>
        requires { IsInTime start }
        ensures { OnOk result (id_starts (map name_of self.new.ids.items) self.new.starts.items
            ≡ id_starts (map name_of self.old.ids.items) self.old.starts.items
            ++ record { id = id.now; start = start } ∷ []) }
    {
        self.starts.push(start)?;
        let number = self.starts.len() as u64;
        self.ids.push(NameLine { number, name: id })?;
        Ok(())
    }

    /// Returns the schedule as a value of plan_views.
    pub fn by_ids(&self) -> IdSchedule<'_>
        ensures ids { map name_of result.ids.now ≡ map name_of self.now.ids.items }
        ensures starts { result.starts.now ≡ self.now.starts.items }
    {
        IdSchedule {
            ids: &self.ids,
            starts: &self.starts,
        }
    }
}
