//! The lines above and below the rows of a table.

/// A line above or below the rows. Its values are members of the JSON object.
#[derive(Debug, Drop)]
pub enum Line {
    /// `optimal 45`: the least makespan.
    Optimal(u64),
    /// `between 40 45`: a lower and an upper bound of the least makespan.
    Between(u64, u64),
    /// `budget 59`: an upper bound of the least makespan.
    Budget(u64),
    /// `T 45`: the length of the project.
    Duration(u64),
    /// `makespan 45`.
    Makespan(u64),
    /// `chain 1 2 5` or `no chain`: activities that determine the makespan.
    Chain(Option<Vec<u32>>),
    /// `chain A B E`: the same activities, and the ids of those that have one.
    IdChain(Vec<u32>, Vec<Vec<u8>>),
    /// `moved 3 of 14`: how many activities start at another time, of those in both schedules.
    Moved(u64, u64),
    /// `tardiness optimal 3` or `tardiness between 1 3`: a lower and an upper bound of the least
    /// greatest tardiness.
    Tardiness(u64, u64),
    /// `late 4 of 12`: how many activities are late, and how many there are.
    Late(u64, u64),
    /// `added A B` or `none added`: a word and ids.
    Ids(&'static str, Vec<Vec<u8>>),
    /// `A makespan 7: active`: the name, the makespan and the verdict of a schedule.
    Summary {
        name: &'static str,
        makespan: u64,
        verdict: String,
    },
}
