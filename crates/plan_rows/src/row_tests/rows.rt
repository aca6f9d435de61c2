//! The rules of single rows.

ghost use Rattle.std.specs.Prelude.{◌≡◌, IfOk};
ghost use Rattle.plan_rows.specs.Names.{is_from_to};
ghost use Rattle.plan_rows.specs.Rules as rules;
ghost use Rattle.plan_rows.specs.Books.{published_in};
ghost use Rattle.plan_rows.specs.Tables.{desk_kept, plan_kept};
ghost use Rattle.plan_rows.specs.RowTests.{Tells, HasHead, PlanTold};

use crate::kinds::PlanKind;
use crate::limits::GREATEST_NUMBER;
use crate::names::is_name;
use crate::row_tests::files::{PlanFile, read_file};
use crate::rows::CodeRow;
use crate::tables::digests::known_digest;
use crate::tables::{DeskRecord, PlanRecord};
use plan_calendar::Calendar;
use plan_psplib::GREATEST_AMOUNT;
use std::alloc::{AllocError, Global};

/// Returns whether a published code keeps the rules of rows.
pub fn is_published_row(row: &CodeRow) -> bool
    ensures { result ≡ rules.is_published_row (published_in row.now) }
{
    is_name(row.code.as_bytes()) && row.capacity <= GREATEST_AMOUNT
}

/// Returns whether a desk keeps the rules of rows.
pub fn is_desk_row(row: &DeskRecord) -> bool
    ensures { result ≡ rules.is_desk_row (desk_kept row.now) }
{
    known_digest(&row.digest);
    is_name(row.desk.as_bytes()) && 1 <= row.next && row.next <= GREATEST_NUMBER + 1
}

fn has_name(kind: PlanKind, name: &str) -> bool
    ensures { Tells result (rules.HasName kind name.now) }
{
    match kind {
        PlanKind::Project => name.is_empty(),
        PlanKind::Shop => true,
    }
}

fn has_calendar(start: &str, days: &str) -> bool
    ensures { Tells result (rules.HasCalendar start.now days.now) }
{
    if start.is_empty() {
        days.is_empty()
    } else {
        Calendar::new(start, days).is_ok()
    }
}

fn is_number(n: u64) -> bool
    ensures { result ≡ is_from_to 1 GREATEST_NUMBER n }
{
    1 <= n && n <= GREATEST_NUMBER
}

// Returns whether a plan keeps the rules of rows that don't concern its file.
fn has_head(row: &PlanRecord) -> bool
    ensures { Tells result (HasHead (plan_kept row.now)) }
{
    if !is_number(row.n) {
        return false;
    }
    if !has_name(row.kind, row.name.as_str()) {
        return false;
    }
    has_calendar(row.start.as_str(), row.days.as_str())
}

/// Reads the file of a plan. It returns `None` if the plan breaks the rules of rows.
pub fn read_row(alloc: Global, row: &PlanRecord) -> Result<Option<PlanFile>, AllocError>
    ensures { IfOk result (PlanTold (plan_kept row.now)) }
{
    if !has_head(row) {
        return Ok(None);
    }
    read_file(alloc, row.kind, row.name.as_str(), row.body.as_slice())
}

/// Returns whether a plan keeps the rules of rows.
pub fn is_plan_row(alloc: Global, row: &PlanRecord) -> Result<bool, AllocError>
    ensures { IfOk result (λ good. Tells good (rules.IsPlanRow (plan_kept row.now))) }
{
    Ok(read_row(alloc, row)?.is_some())
}
