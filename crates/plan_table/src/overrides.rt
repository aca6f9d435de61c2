//! Capacities that are given beside a table.

ghost use Rattle.std.specs.Prelude.{◌≡◌, map, IfOk, OnOk};
ghost use Rattle.std.specs.List.{list_any};
ghost use Rattle.plan_table.specs.Header.{head_of};
ghost use Rattle.plan_table.specs.Overrides as spec;
ghost use Rattle.plan_table.specs.Reading.{Gives};

use crate::cells::{same_name, word_fault};
use crate::fault::{ReadError, TableCode};
use crate::header::{Column, Head};
use plan_psplib::GREATEST_AMOUNT;
use std::alloc::Global;

/// The capacity of the resource with this name (0–10,000). It overrides the one in the table. ASCII
/// case doesn't matter, as in a header.
#[derive(Clone, Copy, Debug)]
pub struct Override<'a> {
    pub resource: &'a [u8],
    pub amount: u32,
}

// Whether a column is the resource with a name.
fn is_resource(head: &Head, name: &[u8]) -> bool
    ensures { result ≡ spec.is_resource name.now (head_of head.now) }
{
    match head.column {
        Column::Resource => same_name(head.name.as_bytes(), name),
        _ => false,
    }
}

// Whether a resource has a name.
fn has_resource(heads: &[Head], name: &[u8]) -> bool
    ensures { result ≡ list_any (spec.is_resource name.now) (map head_of heads.now) }
{
    for head in heads {
        if is_resource(head, name) {
            return true;
        }
    }
    false
}

// Checks that an override names a resource of the table, and that its amount is within the limit.
#[tactic(auto, unfolding(crate::specs::Overrides::override_checked))]
fn check_override(alloc: Global, heads: &[Head], given: &Override<'_>) -> Result<(), ReadError>
    ensures { Gives (λ u. u) result (spec.override_checked (map head_of heads.now)
        (spec.override_of given.now)) }
{
    if !has_resource(heads, given.resource) {
        return Err(word_fault(alloc, TableCode::NoResource, 0, given.resource));
    }
    if u64::from(given.amount) > GREATEST_AMOUNT {
        return Err(word_fault(alloc, TableCode::Limit, 0, b""));
    }
    Ok(())
}

/// Checks that all overrides name resources of the table, with amounts within the limit.
#[tactic(auto, unfolding(crate::specs::Overrides::overrides_checked))]
pub fn check_overrides(
    alloc: Global,
    heads: &[Head],
    overrides: &[Override<'_>],
) -> Result<(), ReadError>
    ensures { Gives (λ u. u) result (spec.overrides_checked (map head_of heads.now)
        (map spec.override_of overrides.now)) }
{
    for given in overrides {
        check_override(alloc, heads, given)?;
    }
    Ok(())
}

/// The amount of the last override for a resource.
pub fn given(overrides: &[Override<'_>], name: &[u8]) -> Option<u32>
    ensures { result ≡ spec.given (map spec.override_of overrides.now) name.now }
{
    let mut found = None;
    for other in overrides {
        if same_name(other.resource, name) {
            found = Some(other.amount);
        }
    }
    found
}
