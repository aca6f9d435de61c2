//! The list that a text says.

ghost use Rattle.std.specs.Prelude.{◌≡◌, ◌≤◌, [], None, length, map, option_map, slice_index_or};
ghost use Rattle.plan_psplib.specs.Plain.{longest_text};
ghost use Rattle.plan_table.specs.Csv.{records_of, row_of};
ghost use Rattle.plan_table.specs.Header.{head_of};
ghost use Rattle.plan_table.specs.Listing as spec;
ghost use Rattle.plan_table.specs.Overrides.{given as spec_given, or_row, override_of};
ghost use Rattle.plan_table.specs.Reading.{Gives};
ghost use Rattle.plan_table.specs.Table.{resource_of};

use crate::cells::word_fault;
use crate::entries::{filled_from, id_place, read_entries};
use crate::fault::{ReadError, TableCode};
use crate::header::{Column, Head};
use crate::overrides::{Override, check_overrides, given};
use crate::records::{Row, read_records};
use crate::settlement::read_header;
use crate::table::{Activity, Resource};
use plan_psplib::LONGEST_TEXT;
use std::alloc::Global;
use std::str;

/// The activities and the resources of a table, and whether it has a column of ids.
#[derive(Drop)]
pub struct Listing {
    pub own_ids: bool,
    pub activities: Vec<Activity>,
    pub resources: Vec<Resource>,
}

// The capacities in the row of a table, and those that override them.
#[derive(Clone, Copy)]
struct Capacities<'a> {
    row: &'a [Option<u32>],
    overrides: &'a [Override<'a>],
}

// The capacity at a place of the row.
fn row_capacity(row: &[Option<u32>], place: usize) -> Option<u32>
    ensures { result ≡ slice_index_or row.now place None }
{
    if place < row.len() { row[place] } else { None }
}

// The capacity of a resource with this name, at this place of the row.
fn capacity_of(capacities: &Capacities<'_>, name: &[u8], place: usize) -> Option<u32>
    ensures { result ≡ or_row (spec_given (map override_of capacities.now.overrides.now) name.now)
        (slice_index_or capacities.now.row.now place None) }
{
    match given(capacities.overrides, name) {
        Some(amount) => Some(amount),
        None => row_capacity(capacities.row, place),
    }
}

// The resources with that of a column.
#[tactic(auto, unfolding(crate::specs::Listing::resource_read))]
fn read_resource(
    alloc: Global,
    capacities: &Capacities<'_>,
    before: &mut Vec<Resource>,
    head: &Head,
) -> Result<(), ReadError>
    ensures { Gives (λ _. map resource_of before.new.items) result (spec.resource_read
        (map override_of capacities.now.overrides.now) capacities.now.row.now
        (map resource_of before.old.items) (head_of head.now)) }
{
    match head.column {
        Column::Resource => {
            let place = before.as_slice().len();
            let name = String::from_str(alloc, head.name.as_str())?;
            match capacity_of(capacities, name.as_bytes(), place) {
                Some(capacity) => before.push(Resource { name, capacity })?,
                None => {
                    let fault = word_fault(alloc, TableCode::NoCapacity, 0, name.as_bytes());
                    return Err(fault);
                }
            }
        }
        _ => {}
    }
    Ok(())
}

// The resources of columns.
#[tactic(auto, unfolding(crate::specs::Listing::resources_at))]
fn read_resources(
    alloc: Global,
    capacities: &Capacities<'_>,
    heads: &[Head],
) -> Result<Vec<Resource>, ReadError>
    ensures { Gives (λ v. map resource_of v.items) result (spec.resources_at
        (map override_of capacities.now.overrides.now) capacities.now.row.now []
        (map head_of heads.now)) }
{
    let mut resources = Vec::new(alloc);
    for head in heads {
        read_resource(alloc, capacities, &mut resources, head)?;
    }
    Ok(resources)
}

// The capacities of their row; none if it hasn't come.
fn or_none(capacities: &Option<Vec<Option<u32>>>) -> &[Option<u32>]
    ensures { result.now ≡ spec.or_none (option_map (λ v. v.items) capacities.now) }
{
    match capacities {
        Some(list) => list,
        None => &[],
    }
}

// Reads rows under columns, with overrides.
#[tactic(auto, unfolding(crate::specs::Listing::rows_under))]
fn read_rows_under(
    alloc: Global,
    overrides: &[Override<'_>],
    heads: &[Head],
    rows: &[Row],
) -> Result<Listing, ReadError>
    ensures { Gives spec.listing_of result (spec.rows_under (map override_of overrides.now)
        (map head_of heads.now) (map row_of rows.now)) }
{
    let entries = read_entries(alloc, heads, rows)?;
    check_overrides(alloc, heads, overrides)?;
    let capacities = Capacities {
        row: or_none(&entries.capacities),
        overrides,
    };
    let resources = read_resources(alloc, &capacities, heads)?;
    Ok(Listing {
        own_ids: id_place(heads).is_some(),
        activities: entries.activities,
        resources,
    })
}

// Reads records, with overrides.
#[tactic(auto, unfolding(crate::specs::Listing::table_in))]
fn read_rows(alloc: Global, overrides: &[Override<'_>], rows: &[Row]) -> Result<Listing, ReadError>
    ensures { Gives spec.listing_of result (spec.table_in (map override_of overrides.now)
        (map row_of rows.now)) }
{
    match rows {
        [first, rest @ ..] => {
            let heads = read_header(alloc, overrides, first, rest)?;
            read_rows_under(alloc, overrides, &heads, rest)
        }
        [] => Err(word_fault(alloc, TableCode::NoDuration, 0, b"")),
    }
}

// The line of a byte.
fn line_at(text: &[u8], n: usize) -> u64
    requires within { n ≤ length text.now }
    requires short { length text.now ≤ longest_text }
    ensures { result ≡ spec.line_at text.now n }
{
    text[..n].iter().filter(|&&byte| byte == b'\n').count() as u64 + 1
}

// A text is UTF-8.
#[tactic(auto, using(crate::proofs::ReadLemmas::not_text, crate::proofs::ReadLemmas::is_text))]
fn check_utf8(alloc: Global, text: &[u8]) -> Result<(), ReadError>
    requires { length text.now ≤ longest_text }
    ensures { Gives (λ u. u) result (spec.utf8 text.now) }
{
    match str::from_utf8(text) {
        Ok(_) => Ok(()),
        Err(error) => {
            let line = line_at(text, error.valid_up_to());
            Err(word_fault(alloc, TableCode::NotText, line, b""))
        }
    }
}

// Records whose quotes are closed.
fn closed_records(alloc: Global, text: &[u8]) -> Result<Vec<Row>, ReadError>
    requires { length text.now ≤ longest_text }
    ensures { Gives (λ v. map row_of v.items) result (spec.closed (records_of text.now)) }
{
    read_records(alloc, text)?.map_err(|line| word_fault(alloc, TableCode::Cells, line, b""))
}

/// The records of the text of a table, or the first check that it fails.
#[tactic(auto, unfolding(crate::specs::Listing::rows_read))]
pub fn read_rows_of(alloc: Global, text: &[u8]) -> Result<Vec<Row>, ReadError>
    ensures { Gives (λ v. map row_of v.items) result (spec.rows_read text.now) }
{
    if text.len() > LONGEST_TEXT {
        return Err(word_fault(alloc, TableCode::TooLong, 0, b""));
    }
    check_utf8(alloc, text)?;
    closed_records(alloc, text)
}

/// Reads the text of a table with overrides, or returns the first check that it fails.
pub fn read_listing(
    alloc: Global,
    overrides: &[Override<'_>],
    text: &[u8],
) -> Result<Listing, ReadError>
    ensures { Gives spec.listing_of result (spec.table_read_with (map override_of overrides.now)
        text.now) }
{
    let rows = read_rows_of(alloc, text)?;
    read_rows(alloc, overrides, filled_from(&rows))
}
