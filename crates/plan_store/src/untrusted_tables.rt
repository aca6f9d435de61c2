//! All rows of an untrusted database except the plans.

ghost use Rattle.std.specs.Prelude.{◌≡◌, IsTrue};
ghost use Rattle.sqlite.specs.State.{HasCleanDisk};
ghost use Rattle.sqlite.specs.Held.{state};
ghost use Rattle.plan_store.specs.QueryEffect.{IsQueryUnder};
ghost use Rattle.plan_store.specs.Layouts.{schema_of};
ghost use Rattle.plan_store.specs.TableTests.{CanRead, Inspects, TakesOthers};
ghost use Rattle.plan_store.specs.UntrustedRows.{ListsTaken, TakesMeta, TakesCodes};
ghost use Rattle.plan_store.specs.UntrustedRows.{TakesDesks, TakesBinds, TakesLags};
ghost use Rattle.plan_store.specs.UntrustedRows.{TakesBoth, only_one};

use crate::layout::Layout;
use crate::schema::{SELECT_BINDS, SELECT_DESKS, SELECT_LAGS, SELECT_META, SELECT_PUBLISHED};
use crate::statements::rows_under;
use crate::untrusted_rows::{TryFromRow, try_all};
use plan_rows::{BindRecord, BookFault, CodeRow, DeskRecord, LagRecord};
use sqlite::{Alter, Connection};
use std::alloc::Global;

// Reads all rows of a query. It returns `None` if one of them is invalid.
fn try_rows<S: Alter, T: TryFromRow>(
    alloc: Global,
    conn: &mut Connection<S>,
    layout: Layout,
    text: &str,
) -> Result<Option<Vec<T>>, BookFault>
    requires ready { CanRead S.Store layout conn.old }
    requires query { IsQueryUnder (schema_of layout) text.now }
    ensures { Inspects S.Store layout conn.old conn.new result
        (ListsTaken T.takes layout text.now) }
{
    let rows = rows_under(conn, layout, text)?;
    try_all(alloc, rows.as_slice())
}

// Returns the only element, if there is exactly one.
fn only_one(all: &[(i64, [u8; 32])]) -> Option<(i64, [u8; 32])>
    ensures { result ≡ only_one all.now }
{
    if all.len() == 1 { Some(all[0]) } else { None }
}

// Reads the version of the tables and the digest of the office's key.
fn try_meta<S: Alter>(
    alloc: Global,
    conn: &mut Connection<S>,
    layout: Layout,
) -> Result<Option<(i64, [u8; 32])>, BookFault>
    requires ready { CanRead S.Store layout conn.old }
    ensures { Inspects S.Store layout conn.old conn.new result
        (λ db. TakesMeta (db.trees 0)) }
{
    match try_rows(alloc, conn, layout, SELECT_META)? {
        Some(all) => Ok(only_one(all.as_slice())),
        None => Ok(None),
    }
}

fn try_codes<S: Alter>(
    alloc: Global,
    conn: &mut Connection<S>,
    layout: Layout,
) -> Result<Option<Vec<CodeRow>>, BookFault>
    requires ready { CanRead S.Store layout conn.old }
    ensures { Inspects S.Store layout conn.old conn.new result
        (λ db. TakesCodes db.trees) }
{
    try_rows(alloc, conn, layout, SELECT_PUBLISHED)
}

fn try_desks<S: Alter>(
    alloc: Global,
    conn: &mut Connection<S>,
    layout: Layout,
) -> Result<Option<Vec<DeskRecord>>, BookFault>
    requires ready { CanRead S.Store layout conn.old }
    ensures { Inspects S.Store layout conn.old conn.new result
        (λ db. TakesDesks db.trees) }
{
    try_rows(alloc, conn, layout, SELECT_DESKS)
}

fn try_binds<S: Alter>(
    alloc: Global,
    conn: &mut Connection<S>,
    layout: Layout,
) -> Result<Option<Vec<BindRecord>>, BookFault>
    requires ready { CanRead S.Store layout conn.old }
    ensures { Inspects S.Store layout conn.old conn.new result
        (λ db. TakesBinds db.trees) }
{
    try_rows(alloc, conn, layout, SELECT_BINDS)
}

fn try_lags<S: Alter>(
    alloc: Global,
    conn: &mut Connection<S>,
    layout: Layout,
) -> Result<Option<Vec<LagRecord>>, BookFault>
    requires ready { CanRead S.Store layout conn.old }
    requires live { HasCleanDisk (state S.Store conn.old)
        → IsTrue (state S.Store conn.old).is_open }
    ensures { Inspects S.Store layout conn.old conn.new result
        (λ db. TakesLags layout db.trees) }
{
    match layout {
        Layout::First => Ok(Some(Vec::new(alloc))),
        Layout::Second => try_rows(alloc, conn, layout, SELECT_LAGS),
    }
}

// Reads the published codes and the desks.
fn codes_and_desks<S: Alter>(
    alloc: Global,
    conn: &mut Connection<S>,
    layout: Layout,
) -> Result<Option<(Vec<CodeRow>, Vec<DeskRecord>)>, BookFault>
    requires ready { CanRead S.Store layout conn.old }
    ensures { Inspects S.Store layout conn.old conn.new result
        (λ db. TakesBoth (TakesCodes db.trees) (TakesDesks db.trees)) }
{
    let Some(codes) = try_codes(alloc, conn, layout)? else {
        return Ok(None);
    };
    let Some(desks) = try_desks(alloc, conn, layout)? else {
        return Ok(None);
    };
    Ok(Some((codes, desks)))
}

// Reads the binds and the lags.
fn binds_and_lags<S: Alter>(
    alloc: Global,
    conn: &mut Connection<S>,
    layout: Layout,
) -> Result<Option<(Vec<BindRecord>, Vec<LagRecord>)>, BookFault>
    requires ready { CanRead S.Store layout conn.old }
    ensures { Inspects S.Store layout conn.old conn.new result
        (λ db. TakesBoth (TakesBinds db.trees) (TakesLags layout db.trees)) }
{
    let Some(binds) = try_binds(alloc, conn, layout)? else {
        return Ok(None);
    };
    let Some(lags) = try_lags(alloc, conn, layout)? else {
        return Ok(None);
    };
    Ok(Some((binds, lags)))
}

/// The version of the tables, and all rows except the plans.
#[derive(Debug, Drop)]
pub struct OtherRows {
    pub version: i64,
    pub office: [u8; 32],
    pub published: Vec<CodeRow>,
    pub desks: Vec<DeskRecord>,
    pub binds: Vec<BindRecord>,
    pub lags: Vec<LagRecord>,
}

/// Reads all rows except the plans. It returns `None` if no office has such rows.
pub fn try_others<S: Alter>(
    alloc: Global,
    conn: &mut Connection<S>,
    layout: Layout,
) -> Result<Option<OtherRows>, BookFault>
    requires { CanRead S.Store layout conn.old }
    ensures { Inspects S.Store layout conn.old conn.new result (TakesOthers layout) }
{
    let Some(meta) = try_meta(alloc, conn, layout)? else {
        return Ok(None);
    };
    let Some((published, desks)) = codes_and_desks(alloc, conn, layout)? else {
        return Ok(None);
    };
    let Some((binds, lags)) = binds_and_lags(alloc, conn, layout)? else {
        return Ok(None);
    };
    let version = meta.0;
    let office = meta.1;
    Ok(Some(OtherRows {
        version,
        office,
        published,
        desks,
        binds,
        lags,
    }))
}
