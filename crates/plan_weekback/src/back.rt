//! A list with the columns of a plan.

ghost use Rattle.std.specs.Prelude.{◌≡◌, map, IfErr, IfOk, OnOk};
ghost use Rattle.plan_errors.specs.Output.{Refuses};
ghost use Rattle.plan_weekback.specs.Columns.{IsBack, IsNoBack};
ghost use Rattle.plan_weekback.specs.Entries.{entry_of};
ghost use Rattle.plan_weekback.specs.Outputs as spec;
ghost use Rattle.plan_weekback.specs.Sameness.{MeansList};

use crate::columns::with_plan;
use crate::entries::Entry;
use crate::faults::{back_refusal, change_refusal, changed_refusal};
use crate::readings::{WeekReading, week_in};
use crate::sameness::same_list;
use plan_encoding::utf8_text;
use plan_errors::CliFault;
use plan_list_back::{ListBackFault, spelled_rows};
use plan_spreadsheet::filled;
use plan_table::{ReadError, read_rows_of};
use plan_weekfile::WeekOrder;
use plan_weeklist::ListedWeek;
use std::alloc::Global;

// Returns the list of a file with the columns of a plan.
#[tactic(auto, using(crate::proofs::BackLemmas::back, crate::proofs::BackLemmas::no_back))]
fn with_texts(
    alloc: Global,
    late: bool,
    entries: &[Entry],
    file: &[u8],
) -> Result<Vec<u8>, ListBackFault>
    ensures back { IfOk result (λ made.
        IsBack late (map entry_of entries.now) file.now made.items) }
    ensures refused { IfErr result (IsNoBack late (map entry_of entries.now) file.now) }
{
    let decoded = utf8_text(alloc, file)?;
    let text = decoded.utf8(file);
    let rows = match read_rows_of(alloc, text) {
        Ok(rows) => filled(alloc, &rows)?,
        Err(ReadError::Memory) => return Err(ListBackFault::Memory),
        Err(ReadError::Fault(_)) => return Err(ListBackFault::NoList),
    };
    let rows = with_plan(alloc, late, entries, &rows)?;
    let made = spelled_rows(alloc, file, text, &rows)?;
    Ok(made)
}

/// Returns the list of a file with the columns of a plan, each row in its line. Errors: `T1` (too
/// long), `T4` (its text isn't read as its rows), `T3`.
#[tactic(auto, using(crate::proofs::BackLemmas::back_told))]
pub fn list_with(
    alloc: Global,
    late: bool,
    entries: &[Entry],
    file: &[u8],
) -> Result<Vec<u8>, CliFault>
    ensures back { IfOk result (λ made.
        IsBack late (map entry_of entries.now) file.now made.items) }
    ensures refused { IfErr result
        (Refuses (spec.TellsNoBack late (map entry_of entries.now) file.now)) }
{
    match with_texts(alloc, late, entries, file) {
        Ok(made) => Ok(made),
        Err(fault) => Err(back_refusal(alloc, fault)),
    }
}

/// Checks that a file is read as the table and the week of another list. Errors: `T1` (reading it
/// fails because a text is too long), `T4` (reading it fails otherwise, or gives another list).
#[tactic(auto, using(crate::proofs::BackLemmas::unread_told))]
pub fn check_same(
    alloc: Global,
    order: &WeekOrder<'_>,
    reading: &WeekReading<'_>,
    listed: &ListedWeek,
    made: &[u8],
) -> Result<(), CliFault>
    ensures same { OnOk result (MeansList order.now.capacities.now order.now.today reading.now
        made.now listed.now) }
    ensures refused { IfErr result
        (Refuses (spec.TellsAnother order.now reading.now listed.now made.now)) }
{
    match week_in(alloc, order, reading, made) {
        Ok(other) => {
            if same_list(listed, &other) {
                Ok(())
            } else {
                Err(changed_refusal(alloc))
            }
        }
        Err(CliFault::Refused(refusal)) => {
            let why = refusal.line(alloc)?;
            Err(change_refusal(alloc, why.as_str()))
        }
        Err(_) => Err(CliFault::Memory),
    }
}
