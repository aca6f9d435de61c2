//! The contents of files that aren't what a command requires.

ghost use Rattle.std.specs.Prelude.{◌≡◌, true};
ghost use Rattle.plan_documents.specs.Contents as spec;

use crate::spreadsheets::plain_of;
use plan_errors::Contents;
use plan_table::{ReadError, TableCode, read_shop_table, read_table};
use std::alloc::Global;

// Whether a list of activities with this error has the header of one, so that a row is wrong.
fn is_in_activities(code: TableCode) -> bool
    ensures { result ≡ spec.is_in_activities code }
{
    matches!(
        code,
        TableCode::BadDuration
            | TableCode::BadId
            | TableCode::IdTwice
            | TableCode::NoSuchId
            | TableCode::BadNeed
            | TableCode::NoCapacity
            | TableCode::Cycle
            | TableCode::Successors
            | TableCode::NeedAbove
    )
}

// Whether a list of orders with this error has the header of one, so that a row is wrong.
fn is_in_orders(code: TableCode) -> bool
    ensures { result ≡ spec.is_in_orders code }
{
    matches!(
        code,
        TableCode::BadDuration | TableCode::BadId | TableCode::TooManySteps
    )
}

// Whether a text is a list of activities, perhaps with an error in a row.
fn is_activity_list(alloc: Global, text: &[u8]) -> bool
    ensures { result ≡ true → spec.IsActivityList text.now }
{
    match read_table(alloc, text) {
        Ok(_) => true,
        Err(ReadError::Memory) => false,
        Err(ReadError::Fault(fault)) => is_in_activities(fault.code),
    }
}

// Whether a text is a list of orders, perhaps with an error in a row.
fn is_order_list(alloc: Global, text: &[u8]) -> bool
    ensures { result ≡ true → spec.IsOrderList text.now }
{
    match read_shop_table(alloc, text) {
        Ok(_) => true,
        Err(ReadError::Memory) => false,
        Err(ReadError::Fault(fault)) => is_in_orders(fault.code),
    }
}

// Returns what a text contains.
fn list_in(alloc: Global, text: &[u8]) -> Contents
    ensures { spec.IsListWith text.now result }
{
    if is_activity_list(alloc, text) {
        Contents::ActivityList
    } else if is_order_list(alloc, text) {
        Contents::OrderList
    } else {
        Contents::Unknown
    }
}

/// Returns what a file contains: a list if `plan import` reads it or names one of its rows. If
/// memory runs out, the contents are unknown.
#[tactic(auto, using(crate::proofs::ContentsLemmas::of_plain))]
pub fn contents_of(alloc: Global, file: &[u8]) -> Contents
    ensures { spec.HasContents file.now result }
{
    match plain_of(alloc, &[], file) {
        Ok(plain) => list_in(alloc, plain.utf8(file)),
        Err(_) => Contents::Unknown,
    }
}
