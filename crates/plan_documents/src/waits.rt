//! The ids in a project file whose activities are shown: all but those of the waits that
//! `plan import` writes for the lags of a list.

ghost use Rattle.std.specs.Prelude.{◌≡◌, ◌==◌, IfOk, IfSome, map};
ghost use Rattle.std.specs.List.{list_all};
ghost use Rattle.plan_net.specs.Network.{IsActivity};
ghost use Rattle.plan_table.specs.Names.{id_key, activity_key, name_of, names_behind};
ghost use Rattle.plan_psplib.specs.Document.{document};
ghost use Rattle.plan_report.specs.IdSheets.{first_behind as first_wait};
ghost use Rattle.plan_documents.specs.Waits as spec;

use plan_psplib::{ProjectDoc, number, read_sm};
use plan_report::{first_behind, is_wait as is_between_rows};
use plan_table::{NameLine, activity_ids, activity_names, first_name};
use std::alloc::{AllocError, Global};

// Returns the number in the id of a wait.
fn wait_number(id: &[u8]) -> Option<u64>
    ensures { result ≡ spec.wait_number id.now }
{
    if id.starts_with(b"wait+") {
        number(&id[5..])
    } else {
        None
    }
}

// Tests whether an id isn't that of a wait.
fn is_row_id(id: &NameLine<'_>) -> bool
    ensures { result ≡ spec.is_row_id (name_of id.now) }
{
    !wait_number(id.name).is_some()
}

// Returns the ids of the rows of a list.
fn row_ids<'a>(alloc: Global, ids: &[NameLine<'a>]) -> Result<Vec<NameLine<'a>>, AllocError>
    ensures { IfOk result (λ rows. map name_of rows.items ≡ spec.row_ids (map name_of ids.now)) }
{
    let mut rows = Vec::new(alloc);
    for &id in ids {
        if is_row_id(&id) {
            rows.push(id)?;
        }
    }
    Ok(rows)
}

// Tests whether the number of an activity is that of a wait with this number.
fn has_place(behind: usize, j: u64, wait: Option<u64>) -> bool
    ensures { result ≡ spec.has_place behind j wait }
{
    match wait {
        Some(k) => k <= j && j - k == behind as u64,
        None => false,
    }
}

// Returns the number of an activity, if it is between the first and the last.
fn inner_number(project: &ProjectDoc, j: u64) -> Option<u32>
    ensures number { result ≡ spec.inner_number project.now j }
    ensures activity { IfSome result (IsActivity project.now.network) }
{
    if j >= 2 && j < project.network().len() as u64 {
        Some(j as u32)
    } else {
        None
    }
}

// Tests whether an activity has no name.
fn is_unnamed(names: &[NameLine<'_>], j: u64) -> bool
    ensures { result ≡ spec.is_unnamed (map name_of names.now) j }
{
    !first_name(names, j).is_some()
}

// Tests whether all needs are 0.
fn are_zero(needs: &[u64]) -> bool
    ensures { result ≡ list_all (λ need. need == 0) needs.now }
{
    for &need in needs {
        if need != 0 {
            return false;
        }
    }
    true
}

// Tests whether an activity without a name and without needs stands between two rows.
fn is_lag(project: &ProjectDoc, names: &[NameLine<'_>], behind: usize, j: u32) -> bool
    requires { IsActivity project.now.network j }
    ensures { result ≡ spec.is_lag project.now (map name_of names.now) behind j }
{
    is_unnamed(names, u64::from(j))
        && are_zero(project.needs(j))
        && is_between_rows(behind, project.network(), j)
}

// Tests whether an id is that of a wait; the first activity behind the rows is `behind`.
fn is_wait(project: &ProjectDoc, names: &[NameLine<'_>], behind: usize, id: &NameLine<'_>) -> bool
    ensures { result ≡ spec.is_wait project.now (map name_of names.now) behind (name_of id.now) }
{
    match inner_number(project, id.number) {
        Some(j) => {
            has_place(behind, u64::from(j), wait_number(id.name))
                && is_lag(project, names, behind, j)
        }
        None => false,
    }
}

// Returns the ids without those of waits.
fn without_waits<'a>(
    alloc: Global,
    project: &ProjectDoc,
    names: &[NameLine<'_>],
    behind: usize,
    ids: &[NameLine<'a>],
) -> Result<Vec<NameLine<'a>>, AllocError>
    ensures { IfOk result (λ shown. map name_of shown.items ≡ spec.without_waits project.now
        (map name_of names.now) behind (map name_of ids.now)) }
{
    let mut shown = Vec::new(alloc);
    for &id in ids {
        if !is_wait(project, names, behind, &id) {
            shown.push(id)?;
        }
    }
    Ok(shown)
}

// Tests whether all ids are those of rows.
fn are_rows(ids: &[NameLine<'_>]) -> bool
    ensures { result ≡ list_all spec.is_row_id (map name_of ids.now) }
{
    for id in ids {
        if !is_row_id(id) {
            return false;
        }
    }
    true
}

// Returns the ids whose activities are shown, with the names and the project in their file.
fn ids_of_project<'a>(
    alloc: Global,
    project: &ProjectDoc,
    names: &[NameLine<'_>],
    ids: &[NameLine<'a>],
) -> Result<Vec<NameLine<'a>>, AllocError>
    ensures { IfOk result (λ shown. map name_of shown.items ≡ spec.without_waits project.now
        (map name_of names.now) (first_wait (spec.row_ids (map name_of ids.now))
        project.now.network) (map name_of ids.now)) }
{
    let rows = row_ids(alloc, ids)?;
    let behind = first_behind(&rows, project.network());
    without_waits(alloc, project, names, behind, ids)
}

/// Returns the ids in a project file whose activities are shown. The file must have been read
/// before, so that only memory can run out.
#[tactic(auto, using(crate::proofs::WaitLemmas::rows_shown))]
pub(crate) fn shown_ids<'a>(alloc: Global, file: &'a [u8]) -> Result<Vec<NameLine<'a>>, AllocError>
    ensures { IfOk result (λ shown. map name_of shown.items ≡ spec.shown_ids (document file.now)
        (names_behind activity_key file.now) (names_behind id_key file.now)) }
{
    let ids = activity_ids(alloc, file)?;
    if are_rows(&ids) {
        return Ok(ids);
    }
    let names = activity_names(alloc, file)?;
    match read_sm(alloc, file) {
        Ok(project) => ids_of_project(alloc, &project, &names, &ids),
        Err(_) => Err(AllocError),
    }
}
