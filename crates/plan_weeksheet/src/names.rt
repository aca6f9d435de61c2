//! The names for the page of a week.

ghost use Rattle.std.specs.Prelude.{◌≡◌, ◌++◌, ◌∷◌, [], IfOk, map};
ghost use Rattle.plan_table.specs.Names.{name_of};
ghost use Rattle.plan_table.specs.Table.{resource_of};
ghost use Rattle.plan_views.specs.LinkColumns.{needs_text as words_of};
ghost use Rattle.plan_weekfile.specs.Weeks.{names_from};
ghost use Rattle.plan_weeksheet.specs.Names as spec;
ghost use Rattle.plan_weeksheet.specs.Rectangles.{rectangle_of};

use crate::rectangle::Rectangle;
use plan_table::{NameLine, Resource};
use plan_views::needs_text;
use std::alloc::{AllocError, Global};

// The number of the first rectangle.
const FIRST: u64 = 2;

/// Returns the names of resources, by their numbers from 1.
pub(crate) fn resource_names<'a>(
    alloc: Global,
    resources: &'a [Resource],
) -> Result<Vec<NameLine<'a>>, AllocError>
    ensures { IfOk result (λ lines. map name_of lines.items
        ≡ names_from 1 (map resource_of resources.now)) }
{
    let mut lines = Vec::new(alloc);
    for (k, resource) in resources.iter().enumerate() {
        lines.push(NameLine {
            number: k as u64 + 1,
            name: resource.name.as_bytes(),
        })?;
    }
    Ok(lines)
}

// Appends texts with the numbers of rectangles to other ones.
fn numbered_behind<'a>(
    mut lines: Vec<NameLine<'a>>,
    texts: &[&'a [u8]],
) -> Result<Vec<NameLine<'a>>, AllocError>
    ensures { IfOk result (λ v. map name_of v.items ≡ map name_of lines.entry.items
        ++ spec.numbered_from 2 (map (λ text. text.now) texts.now)) }
{
    for (k, &name) in texts.iter().enumerate() {
        lines.push(NameLine {
            number: k as u64 + FIRST,
            name,
        })?;
    }
    Ok(lines)
}

// Returns texts with the numbers of rectangles, from 2 on.
fn numbered<'a>(alloc: Global, texts: &[&'a [u8]]) -> Result<Vec<NameLine<'a>>, AllocError>
    ensures { IfOk result (λ v. map name_of v.items
        ≡ spec.numbered_from 2 (map (λ text. text.now) texts.now)) }
{
    numbered_behind(Vec::new(alloc), texts)
}

// Returns an empty id with the number 0, which no activity has.
fn no_ids<'a>(alloc: Global) -> Result<Vec<NameLine<'a>>, AllocError>
    ensures { IfOk result (λ v. map name_of v.items ≡ spec.no_id ∷ []) }
{
    let mut lines = Vec::new(alloc);
    lines.push(NameLine {
        number: 0,
        name: b"",
    })?;
    Ok(lines)
}

// Returns the ids of rectangles as texts.
fn id_texts<'a>(alloc: Global, rectangles: &[Rectangle<'a>]) -> Result<Vec<&'a [u8]>, AllocError>
    ensures { IfOk result (λ v. map (λ text. text.now) v.items
        ≡ map (λ r. r.id) (map rectangle_of rectangles.now)) }
{
    let mut texts = Vec::new(alloc);
    for rectangle in rectangles {
        texts.push(rectangle.id)?;
    }
    Ok(texts)
}

/// Returns the ids of rectangles.
pub(crate) fn ids_of<'a>(
    alloc: Global,
    rectangles: &[Rectangle<'a>],
) -> Result<Vec<NameLine<'a>>, AllocError>
    ensures { IfOk result (λ v. map name_of v.items
        ≡ spec.no_id ∷ spec.numbered_from 2 (map (λ r. r.id) (map rectangle_of rectangles.now))) }
{
    let texts = id_texts(alloc, rectangles)?;
    let before = no_ids(alloc)?;
    numbered_behind(before, &texts)
}

// Returns the names of rectangles as texts.
fn name_texts<'a>(alloc: Global, rectangles: &[Rectangle<'a>]) -> Result<Vec<&'a [u8]>, AllocError>
    ensures { IfOk result (λ v. map (λ text. text.now) v.items
        ≡ map (λ r. r.name) (map rectangle_of rectangles.now)) }
{
    let mut texts = Vec::new(alloc);
    for rectangle in rectangles {
        texts.push(rectangle.name)?;
    }
    Ok(texts)
}

/// Returns the names of rectangles.
pub(crate) fn names_of<'a>(
    alloc: Global,
    rectangles: &[Rectangle<'a>],
) -> Result<Vec<NameLine<'a>>, AllocError>
    ensures { IfOk result (λ v. map name_of v.items
        ≡ spec.numbered_from 2 (map (λ r. r.name) (map rectangle_of rectangles.now))) }
{
    let texts = name_texts(alloc, rectangles)?;
    numbered(alloc, &texts)
}

// Returns the ids of the predecessors of rectangles as texts.
fn predecessor_texts<'a>(
    alloc: Global,
    rectangles: &[Rectangle<'a>],
) -> Result<Vec<&'a [u8]>, AllocError>
    ensures { IfOk result (λ v. map (λ text. text.now) v.items
        ≡ map (λ r. r.predecessors) (map rectangle_of rectangles.now)) }
{
    let mut texts = Vec::new(alloc);
    for rectangle in rectangles {
        texts.push(rectangle.predecessors)?;
    }
    Ok(texts)
}

/// Returns the ids of the predecessors of rectangles.
pub(crate) fn predecessors_of<'a>(
    alloc: Global,
    rectangles: &[Rectangle<'a>],
) -> Result<Vec<NameLine<'a>>, AllocError>
    ensures { IfOk result (λ v. map name_of v.items
        ≡ spec.numbered_from 2 (map (λ r. r.predecessors) (map rectangle_of rectangles.now))) }
{
    let texts = predecessor_texts(alloc, rectangles)?;
    numbered(alloc, &texts)
}

/// Returns the needs of rectangles as texts, by the names of the resources.
pub(crate) fn need_texts(
    alloc: Global,
    names: &[NameLine<'_>],
    rectangles: &[Rectangle<'_>],
) -> Result<Vec<Vec<u8>>, AllocError>
    ensures { IfOk result (λ v. map (λ text. text.items) v.items
        ≡ map (λ r. words_of (map name_of names.now) r.needs) (map rectangle_of rectangles.now)) }
{
    let mut texts = Vec::new(alloc);
    for rectangle in rectangles {
        texts.push(needs_text(alloc, names, &rectangle.needs)?)?;
    }
    Ok(texts)
}

// Returns texts as slices.
fn slices_of(alloc: Global, texts: &[Vec<u8>]) -> Result<Vec<&[u8]>, AllocError>
    ensures { IfOk result (λ v. map (λ text. text.now) v.items
        ≡ map (λ text. text.items) texts.now) }
{
    let mut slices = Vec::new(alloc);
    for text in texts {
        slices.push(text.as_slice())?;
    }
    Ok(slices)
}

/// Returns texts with the numbers of rectangles.
pub(crate) fn lines_of(alloc: Global, texts: &[Vec<u8>]) -> Result<Vec<NameLine<'_>>, AllocError>
    ensures { IfOk result (λ v. map name_of v.items
        ≡ spec.numbered_from 2 (map (λ text. text.items) texts.now)) }
{
    let slices = slices_of(alloc, texts)?;
    numbered(alloc, &slices)
}
