//! The project of the rectangles of a chart, and their starts.

ghost use Rattle.std.specs.Prelude.{◌≡◌, ◌<◌, true, map, nat_le, IfOk, IsErrOf, length};
ghost use Rattle.std.specs.Prelude.{slice_index};
ghost use Rattle.std.specs.List.{list_all};
ghost use Rattle.plan_psplib.specs.Plain.{longest_text};
ghost use Rattle.plan_psplib.specs.Tokens.{greatest};
ghost use Rattle.plan_table.specs.Jobs.{project_of};
ghost use Rattle.plan_table.specs.ProjectText.{project_text as text_of};
ghost use Rattle.plan_table.specs.Table.{activity_of, resource_of};
ghost use Rattle.plan_weeksheet.specs.Drawn as spec;
ghost use Rattle.plan_weeksheet.specs.Rectangles.{rectangle_of};

use crate::rectangle::Rectangle;
use plan_psplib::{ProjectDoc, read_sm};
use plan_table::{Activity, Resource, Table, TextFault, project_text};
use std::alloc::{AllocError, Global};

// Returns the number at a place, 0 if there is none.
fn at(list: &[u64], place: usize) -> u64
    ensures { result ≡ slice_index list.now place }
{
    if place < list.len() { list[place] } else { 0 }
}

// Returns the drawn need of resource `k`: at most its capacity.
#[tactic(auto, using(crate::proofs::ListLemmas::small_at))]
fn drawn_need(capacities: &[u64], needs: &[u64], k: usize) -> u32
    requires { list_all (λ capacity. nat_le capacity greatest) capacities.now ≡ true }
    ensures { result ≡ spec.drawn_need capacities.now needs.now k }
{
    at(needs, k).min(at(capacities, k)) as u32
}

// Returns the drawn needs, one for each resource.
fn drawn_needs(alloc: Global, capacities: &[u64], needs: &[u64]) -> Result<Vec<u32>, AllocError>
    requires { list_all (λ capacity. nat_le capacity greatest) capacities.now ≡ true }
    ensures { IfOk result (λ v. v.items ≡ spec.drawn_needs capacities.now needs.now) }
{
    let mut drawn = Vec::new(alloc);
    for k in 0..capacities.len() {
        drawn.push(drawn_need(capacities, needs, k))?;
    }
    Ok(drawn)
}

// Returns a rectangle as the row of a list.
fn row_of(
    alloc: Global,
    capacities: &[u64],
    rectangle: &Rectangle<'_>,
) -> Result<Activity, AllocError>
    requires capacities { list_all (λ capacity. nat_le capacity greatest) capacities.now ≡ true }
    requires rectangle { spec.is_drawable (rectangle_of rectangle.now) ≡ true }
    ensures { IfOk result (λ a.
        activity_of a ≡ spec.row_of capacities.now (rectangle_of rectangle.now)) }
{
    let needs = drawn_needs(alloc, capacities, &rectangle.needs)?;
    Ok(Activity {
        line: 0,
        id: String::new(alloc),
        name: String::new(alloc),
        duration: rectangle.lasts as u32,
        predecessors: Vec::new(alloc),
        needs,
    })
}

// Returns all rectangles as rows.
fn rows_of(
    alloc: Global,
    capacities: &[u64],
    rectangles: &[Rectangle<'_>],
) -> Result<Vec<Activity>, AllocError>
    requires capacities { list_all (λ capacity. nat_le capacity greatest) capacities.now ≡ true }
    requires rectangles { list_all spec.is_drawable (map rectangle_of rectangles.now) ≡ true }
    ensures { IfOk result (λ v. map activity_of v.items
        ≡ map (spec.row_of capacities.now) (map rectangle_of rectangles.now)) }
{
    let mut rows = Vec::new(alloc);
    for rectangle in rectangles {
        rows.push(row_of(alloc, capacities, rectangle)?)?;
    }
    Ok(rows)
}

// Returns the resources with these capacities.
fn supplies_of(alloc: Global, capacities: &[u64]) -> Result<Vec<Resource>, AllocError>
    requires { list_all (λ capacity. nat_le capacity greatest) capacities.now ≡ true }
    ensures { IfOk result (λ v. map resource_of v.items ≡ map spec.supply_of capacities.now) }
{
    let mut supplies = Vec::new(alloc);
    for &capacity in capacities {
        supplies.push(Resource {
            name: "R".to_string(alloc)?,
            capacity: capacity as u32,
        })?;
    }
    Ok(supplies)
}

/// Returns the list of rectangles that are within the limits.
pub(crate) fn list_of(
    alloc: Global,
    capacities: &[u64],
    rectangles: &[Rectangle<'_>],
) -> Result<Table, AllocError>
    requires few { spec.are_few capacities.now (map rectangle_of rectangles.now) ≡ true }
    requires small { spec.are_small capacities.now (map rectangle_of rectangles.now) ≡ true }
    ensures { IfOk result (λ t. t ≡ spec.list_of capacities.now (map rectangle_of rectangles.now)) }
{
    let activities = rows_of(alloc, capacities, rectangles)?;
    let resources = supplies_of(alloc, capacities)?;
    Ok(Table {
        own_ids: false,
        activities,
        resources,
    })
}

/// Returns the project of a list. It is read from a project file, as there is no other way to one.
#[tactic(auto, using(crate::proofs::ProjectLemmas::read_as))]
pub(crate) fn project_in(alloc: Global, table: &Table) -> Result<ProjectDoc, TextFault>
    ensures project { IfOk result (λ doc. doc ≡ project_of table.now) }
    ensures long { IsErrOf result TextFault.TooLong →
        longest_text < length (text_of table.now) }
{
    let text = project_text(alloc, table)?;
    match read_sm(alloc, text.as_bytes()) {
        Ok(project) => Ok(project),
        // A project file is read unless memory runs out.
        Err(_) => Err(TextFault::Memory),
    }
}

/// Returns the capacities of the project of rectangles.
#[tactic(auto, using(crate::proofs::FitLemmas::some_capacities))]
pub(crate) fn drawn_capacities(alloc: Global, capacities: &[u64]) -> Result<Vec<u64>, AllocError>
    ensures { IfOk result (λ v. v.items ≡ spec.drawn_capacities capacities.now) }
{
    match capacities {
        [] => Ok(Vec::from_array(alloc, [0])?),
        [_, ..] => Ok(Vec::from_slice(alloc, capacities)?),
    }
}

/// Returns the starts of the activities of the project of rectangles.
pub(crate) fn drawn_starts(
    alloc: Global,
    rectangles: &[Rectangle<'_>],
    makespan: u64,
) -> Result<Vec<u64>, AllocError>
    ensures { IfOk result (λ v. v.items
        ≡ spec.drawn_starts (map rectangle_of rectangles.now) makespan) }
{
    let mut starts = Vec::new(alloc);
    starts.push(0)?;
    for rectangle in rectangles {
        starts.push(rectangle.from)?;
    }
    starts.push(makespan)?;
    Ok(starts)
}
