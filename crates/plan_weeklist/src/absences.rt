//! The absences of the week of a list.

ghost use Rattle.std.specs.Prelude.{◌≡◌, ◌<◌, ◌≤◌, [], length, map, IfSome};
ghost use Rattle.plan_psplib.specs.Head.{most_resources};
ghost use Rattle.plan_table.specs.Table.{resource_of};
ghost use Rattle.plan_weeklist.specs.Faults.{Gives};
ghost use Rattle.plan_weeklist.specs.ListedWeeks as spec;
ghost use Rattle.plan_weeklist.specs.Rows.{absence_of, shortage_of};

use crate::fault::{WeekCode, WeekError};
use crate::numbers::word_fault;
use crate::rows::{AbsenceRow, Shortage};
use plan_kernel::Absence;
use plan_table::{Resource, same_name};
use std::alloc::Global;

// The first resource with a name, without regard to ASCII case.
fn resource_by(name: &[u8], resources: &[Resource]) -> Option<usize>
    ensures place { result ≡ spec.resource_from name.now 0 (map resource_of resources.now) }
    ensures within { IfSome result (λ k. k < length resources.now) }
{
    for (k, resource) in resources.iter().enumerate() {
        if same_name(resource.name.as_bytes(), name) {
            return Some(k);
        }
    }
    None
}

// The absence that a shortage is.
fn absence_by(
    alloc: Global,
    resources: &[Resource],
    row: &AbsenceRow,
    shortage: &Shortage,
) -> Result<Absence, WeekError>
    requires { length resources.now ≤ most_resources }
    ensures { Gives (λ a. a) result (spec.absence_by (absence_of row.now)
        (shortage_of shortage.now) (spec.resource_from (shortage_of shortage.now).resource 0
        (map resource_of resources.now))) }
{
    match resource_by(&shortage.resource, resources) {
        Some(k) => Ok(Absence {
            resource: k as u32,
            from: row.from,
            until: row.until,
            amount: shortage.amount,
        }),
        None => Err(word_fault(alloc, WeekCode::NoResource, row.line, &shortage.resource)),
    }
}

// Puts the absences of a row behind others.
#[tactic(auto, unfolding(crate::specs::ListedWeeks::shortages_in))]
fn push_absences(
    alloc: Global,
    resources: &[Resource],
    absences: &mut Vec<Absence>,
    row: &AbsenceRow,
) -> Result<(), WeekError>
    requires { length resources.now ≤ most_resources }
    ensures { Gives (λ _. absences.new.items) result (spec.shortages_in
        (map resource_of resources.now) (absence_of row.now) absences.old.items
        (map shortage_of row.now.shortages.items)) }
{
    for shortage in &row.shortages {
        let absence = absence_by(alloc, resources, row, shortage)?;
        absences.push(absence)?;
    }
    Ok(())
}

/// Returns the absences of rows, or the first one of what is no resource.
#[tactic(auto, unfolding(crate::specs::ListedWeeks::absences_in))]
pub fn absences_of(
    alloc: Global,
    resources: &[Resource],
    rows: &[AbsenceRow],
) -> Result<Vec<Absence>, WeekError>
    requires { length resources.now ≤ most_resources }
    ensures { Gives (λ v. v.items) result (spec.absences_in (map resource_of resources.now) []
        (map absence_of rows.now)) }
{
    let mut absences = Vec::new(alloc);
    for row in rows {
        push_absences(alloc, resources, &mut absences, row)?;
    }
    Ok(absences)
}
