//! `Dates` and its getters.

ghost use Rattle.std.specs.Prelude.{◌≡◌, ◌↔◌, IsTrue};
ghost use Rattle.plan_cpm.specs.Dates.{IsConsistent, IsDated, early_start_of, early_finish_of, late_start_of, late_finish_of, total_float_of, free_float_of};

use plan_net::index_of;
use std::marker::Model;

/// The dates of a network's activities, in whole time units from 0 on. Activities are numbered from
/// 1.
#[derive(Drop)]
pub struct Dates {
    duration: u64,
    durations: Vec<u64>,
    finishes: Vec<u64>,
    tails: Vec<u64>,
    free_floats: Vec<u64>,
}

impl Model for Dates {
    ghost use Rattle.plan_cpm.specs.Dates.{DateTable};

    ghost Value = { DateTable };

    ghost use Rattle.plan_cpm.specs.DateFields.{table_of, IsConsistentInside};

    ghost view = { table_of };

    ghost invariant = { IsConsistentInside };
}

impl Dates {
    pub(super) fn from_parts(
        duration: u64,
        durations: Vec<u64>,
        finishes: Vec<u64>,
        tails: Vec<u64>,
        free_floats: Vec<u64>,
    ) -> Self
        requires { IsConsistent
            (record {
              duration = duration;
              durations = durations.items;
              finishes = finishes.items;
              tails = tails.items;
              free_floats = free_floats.items;
            }) }
        ensures { result ≡ record {
          duration = duration;
          durations = durations.items;
          finishes = finishes.items;
          tails = tails.items;
          free_floats = free_floats.items;
        } }
    {
        Dates {
            duration,
            durations,
            finishes,
            tails,
            free_floats,
        }
    }

    /// T: the least duration of the project, which is the length of the longest path.
    pub fn duration(&self) -> u64
        ensures { result ≡ self.now.duration }
    {
        self.duration
    }

    /// ES: the earliest start of activity `j`.
    pub fn es(&self, j: u32) -> u64
        requires { IsDated self.now j }
        ensures { result ≡ early_start_of self.now j }
    {
        self.finishes[index_of(j)] - self.durations[index_of(j)]
    }

    /// EF: the earliest finish of activity `j`.
    pub fn ef(&self, j: u32) -> u64
        requires { IsDated self.now j }
        ensures { result ≡ early_finish_of self.now j }
    {
        self.finishes[index_of(j)]
    }

    /// LS: the latest start of activity `j` that doesn't delay the project.
    pub fn ls(&self, j: u32) -> u64
        requires { IsDated self.now j }
        ensures { result ≡ late_start_of self.now j }
    {
        self.duration - self.tails[index_of(j)]
    }

    /// LF: the latest finish of activity `j` that doesn't delay the project.
    pub fn lf(&self, j: u32) -> u64
        requires { IsDated self.now j }
        ensures { result ≡ late_finish_of self.now j }
    {
        self.duration - self.tails[index_of(j)] + self.durations[index_of(j)]
    }

    /// TF: the total float of activity `j`, by which it may start later without delaying the
    /// project.
    pub fn tf(&self, j: u32) -> u64
        requires { IsDated self.now j }
        ensures { result ≡ total_float_of self.now j }
    {
        let k = index_of(j);
        let start = self.finishes[k] - self.durations[k];
        self.duration - self.tails[k] - start
    }

    /// FF: the free float of activity `j`, by which it may start later without delaying any other.
    pub fn ff(&self, j: u32) -> u64
        requires { IsDated self.now j }
        ensures { result ≡ free_float_of self.now j }
    {
        self.free_floats[index_of(j)]
    }

    /// Tests whether activity `j` is critical: its total float is 0.
    pub fn critical(&self, j: u32) -> bool
        requires { IsDated self.now j }
        ensures { IsTrue result ↔ (total_float_of self.now j ≡ 0) }
    {
        self.tf(j) == 0
    }
}
