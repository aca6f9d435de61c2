//! The errors of a list that can't have the columns of a plan.

ghost use Rattle.std.specs.Prelude.{◌≡◌, bytes_eq, codes};
ghost use Rattle.plan_errors.specs.Output.{Refuses};
ghost use Rattle.plan_list_back.specs.declared.fault.ListBackFault.TheVariants as faults;
ghost use Rattle.plan_weekback.specs.Outputs as spec;

use plan_errors::{About, CliFault, Code, refuse_words};
use plan_list_back::ListBackFault;
use std::alloc::Global;

// Returns the error of a file that is no list of activities.
fn no_list_refusal(alloc: Global) -> CliFault
    ensures { Refuses (spec.TellsBack faults.NoList) result }
{
    refuse_words(alloc, Code::NoDurations, About::List, "no column duration")
}

// Returns the error of a list that is too long with the columns.
fn long_refusal(alloc: Global) -> CliFault
    ensures { Refuses (spec.TellsBack faults.TooLong) result }
{
    refuse_words(alloc, Code::LongTable, About::List, "too long")
}

/// Returns the error of a list that is read as another table or week with the columns.
pub fn changed_refusal(alloc: Global) -> CliFault
    ensures { Refuses (spec.TellsBack faults.Changed) result }
{
    let words = "column start, finish or late twice";
    refuse_words(alloc, Code::ColumnTwice, About::List, words)
}

/// Returns the error of a list that can't be printed with the columns.
pub fn back_refusal(alloc: Global, fault: ListBackFault) -> CliFault
    ensures { Refuses (spec.TellsBack fault) result }
{
    match fault {
        ListBackFault::Memory => CliFault::Memory,
        ListBackFault::NoList => no_list_refusal(alloc),
        ListBackFault::TooLong => long_refusal(alloc),
        ListBackFault::Changed => changed_refusal(alloc),
    }
}

// Whether the line of an error is that of a text that is too long.
fn is_long(why: &str) -> bool
    ensures { result ≡ bytes_eq why.now (codes "T1 too long") }
{
    why == "T1 too long"
}

/// Returns the error of a list that can't be read with the columns. `why` is the error line of
/// reading it.
#[tactic(auto, using(crate::proofs::BackLemmas::long_change, crate::proofs::BackLemmas::meaning_change))]
pub fn change_refusal(alloc: Global, why: &str) -> CliFault
    ensures { Refuses (spec.TellsChange why.now) result }
{
    if is_long(why) {
        long_refusal(alloc)
    } else {
        changed_refusal(alloc)
    }
}
