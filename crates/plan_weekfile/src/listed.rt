//! The table and the week of a list, with given capacities.

ghost use Rattle.std.specs.Prelude.{◌≡◌, [], IfErr, IfOk, length, map};
ghost use Rattle.plan_errors.specs.Output.{Refuses};
ghost use Rattle.plan_table.specs.Names.{name_of};
ghost use Rattle.plan_table.specs.Table.{resource_of};
ghost use Rattle.plan_weekfile.specs.Weeks as spec;
ghost use Rattle.plan_weeklist.specs.ListedLists.{IsListedWeek, IsNoListedWeek};

use crate::faults::list_refusal;
use plan_documents::{Capacity, replaced};
use plan_errors::CliFault;
use plan_spreadsheet::plain_list;
use plan_table::{NameLine, Resource, read_sound_table};
use plan_week::Week;
use plan_weeklist::{ListFault, ListedWeek, read_week, read_week_list, week_of};
use std::alloc::{AllocError, Global};

/// Returns the names of resources, by their numbers from 1.
pub(crate) fn resource_lines<'a>(
    alloc: Global,
    resources: &'a [Resource],
) -> Result<Vec<NameLine<'a>>, AllocError>
    ensures { IfOk result (λ lines. map name_of lines.items
        ≡ spec.names_from 1 (map resource_of resources.now)) }
{
    let mut lines = Vec::new(alloc);
    for (k, resource) in resources.iter().enumerate() {
        lines.push(NameLine {
            number: k as u64 + 1,
            name: resource.name.as_bytes(),
        })?;
    }
    Ok(lines)
}

// Reads a list as a week. Its needs may be above its capacities.
fn sound_week(alloc: Global, now: Option<u32>, text: &[u8]) -> Result<ListedWeek, ListFault>
    ensures listed { IfOk result (IsListedWeek [] now text.now) }
    ensures refused { IfErr result (spec.IsNoSoundWeek now text.now) }
{
    let list = read_week_list(alloc, &[], now, text)?;
    let own = list.text(text);
    let plain = plain_list(alloc, &[], own)?;
    let table = read_sound_table(alloc, &[], plain.utf8(own))?;
    let week = week_of(alloc, &table, &list.rows, now)?;
    Ok(ListedWeek { table, week })
}

// Returns the capacities of a week, with the given ones in place of those of the list.
fn capacities_of(
    alloc: Global,
    given: &[Capacity<'_>],
    listed: &ListedWeek,
) -> Result<Vec<u64>, CliFault>
    ensures made { IfOk result (λ list. spec.AreCapacities given.now listed.now list.items) }
    ensures whole { IfOk result (λ list.
        length list.items ≡ length listed.now.week.capacities.items) }
    ensures refused { IfErr result (Refuses (spec.TellsNoCapacity given.now listed.now)) }
{
    let names = resource_lines(alloc, &listed.table.resources)?;
    replaced(alloc, &names, given, &listed.week.capacities)
}

// Returns a week with other capacities.
fn with_capacities(week: Week, capacities: Vec<u64>) -> Week
    requires { length capacities.items ≡ length week.capacities.items }
    ensures rest { spec.KeepsAllButCapacities week result }
    ensures capacities { result.capacities ≡ capacities }
{
    Week {
        durations: week.durations,
        arcs: week.arcs,
        needs: week.needs,
        capacities,
        states: week.states,
        dues: week.dues,
        absences: week.absences,
        today: week.today,
    }
}

// Reads a list as a week, with the given capacities in place of those of the list.
#[tactic(auto, using(crate::proofs::FaultLemmas::no_sound, crate::proofs::FaultLemmas::no_given, crate::proofs::WeekLemmas::given_made))]
fn given_week(
    alloc: Global,
    given: &[Capacity<'_>],
    now: Option<u32>,
    text: &[u8],
) -> Result<ListedWeek, CliFault>
    ensures listed { IfOk result (spec.IsGivenWeek given.now now text.now) }
    ensures refused { IfErr result (Refuses (spec.TellsNoGiven given.now now text.now)) }
{
    let listed = match sound_week(alloc, now, text) {
        Ok(listed) => listed,
        Err(fault) => return Err(list_refusal(alloc, fault, text)),
    };
    let capacities = capacities_of(alloc, given, &listed)?;
    Ok(ListedWeek {
        table: listed.table,
        week: with_capacities(listed.week, capacities),
    })
}

// Reads a list as a week.
#[tactic(auto, using(crate::proofs::FaultLemmas::no_own))]
fn own_week(alloc: Global, now: Option<u32>, text: &[u8]) -> Result<ListedWeek, CliFault>
    ensures listed { IfOk result (IsListedWeek [] now text.now) }
    ensures refused { IfErr result (Refuses (spec.TellsNoOwn now text.now)) }
{
    match read_week(alloc, &[], now, text) {
        Ok(listed) => Ok(listed),
        Err(fault) => Err(list_refusal(alloc, fault, text)),
    }
}

/// Reads a list as a week, with the given capacities in place of those of the list. With given
/// capacities, needs may be above those of the list, as for the other commands. Errors: those of
/// the list, then `S8` (no such resource).
pub fn listed_week(
    alloc: Global,
    given: &[Capacity<'_>],
    now: Option<u32>,
    text: &[u8],
) -> Result<ListedWeek, CliFault>
    ensures listed { IfOk result (spec.IsWeekWith given.now now text.now) }
    ensures refused { IfErr result (Refuses (spec.TellsNoWeek given.now now text.now)) }
{
    match given {
        [] => own_week(alloc, now, text),
        [_, ..] => given_week(alloc, given, now, text),
    }
}
