//! The queries that answer the calls of a book.

ghost use Rattle.std.specs.Prelude.{◌≡◌, find, length, map, false};
ghost use Rattle.sqlite.specs.Given.{IsPlain};
ghost use Rattle.sqlite.specs.Held.{state};
ghost use Rattle.sqlite.specs.Listing.{understood, reads_listing};
ghost use Rattle.sqlite.specs.Values.{bound};
ghost use Rattle.plan_rows.specs.World.{code_in, desk_in, plan_in, is_code, is_bind, is_lag};
ghost use Rattle.std.specs.List.{list_any};
ghost use Rattle.plan_rows.specs.Views.{view};
ghost use Rattle.plan_rows.specs.Plans.{places_of, lags_of, has_number};
ghost use Rattle.plan_rows.specs.Books.{Matches, IsDeskAnswer, IsCapacityAnswer};
ghost use Rattle.plan_rows.specs.Books.{ListsCodes, ListsPlans, IsPlanAnswer, bind_in, lag_in};
ghost use Rattle.plan_store.specs.Tables.{store_schema};
ghost use Rattle.plan_store.specs.BookCalls.{Serves, ReadsTables, ReadsOffice};
ghost use Rattle.plan_store.specs.QueryRows.{ListsShown, FirstShown, OfficeShown};
ghost use Rattle.plan_store.specs.QueryRows.{AnyShown, IsPlanPart};
ghost use Rattle.plan_store.specs.KeptPlans.{KeepsPlans};

use crate::kept_plans::KeptPlans;
use crate::numbers::sql_number;
use crate::query_rows::{FromRow, PlanPart, read_all, read_digest, read_first};
use crate::schema::{LIST_PUBLISHED, SELECT_PLAN};
use crate::statements::{prepare, rows_of};
use plan_rows::{BindEntry, BookFault, CodeRow, DeskRow, Kind, LagEntry, PlanEntry, PlanRow};
use sqlite::types::ValueRef;
use sqlite::{Alter, Connection, params};
use std::alloc::Global;

// Selects the digest of the office's key.
const OFFICE: &str = "SELECT office FROM meta ORDER BY rowid";

/// Reads all rows of a query.
pub fn list_rows<S: Alter, T: FromRow>(
    alloc: Global,
    conn: &mut Connection<S>,
    text: &str,
    params: &[ValueRef<'_>],
) -> Result<Vec<T>, BookFault>
    requires ready { Serves S.Store conn.old }
    requires plain { IsPlain (understood store_schema text.now) }
    requires ours { reads_listing store_schema text.now ≡ false }
    ensures { ReadsTables S.Store conn.old conn.new result
        (λ db all. ListsShown T.shows text.now db (bound params.now) all.items) }
{
    let rows = rows_of(conn, text, params)?;
    read_all(alloc, rows.as_slice())
}

// Reads the first row of a query, if there is one.
fn first_row<S: Alter, T: FromRow>(
    conn: &mut Connection<S>,
    text: &str,
    params: &[ValueRef<'_>],
) -> Result<Option<T>, BookFault>
    requires ready { Serves S.Store conn.old }
    requires plain { IsPlain (understood store_schema text.now) }
    requires ours { reads_listing store_schema text.now ≡ false }
    ensures { ReadsTables S.Store conn.old conn.new result
        (λ db. FirstShown T.shows text.now db (bound params.now)) }
{
    let rows = rows_of(conn, text, params)?;
    read_first(rows.as_slice())
}

// Reads the digest in the first row of a query.
fn first_digest<S: Alter>(
    conn: &mut Connection<S>,
    text: &str,
    params: &[ValueRef<'_>],
) -> Result<[u8; 32], BookFault>
    requires ready { Serves S.Store conn.old }
    requires plain { IsPlain (understood store_schema text.now) }
    requires ours { reads_listing store_schema text.now ≡ false }
    ensures { ReadsTables S.Store conn.old conn.new result
        (λ db. OfficeShown text.now db (bound params.now)) }
{
    let rows = rows_of(conn, text, params)?;
    read_digest(rows.as_slice())
}

/// Reads the digest of the office's key.
pub fn office_in<S: Alter>(conn: &mut Connection<S>) -> Result<[u8; 32], BookFault>
    requires ready { Serves S.Store conn.old }
    ensures { ReadsOffice S.Store conn.old conn.new result
        (λ w digest. digest ≡ w.office) }
{
    first_digest(conn, OFFICE, &[])
}

/// Reads a desk by its name.
pub fn find_desk<S: Alter>(
    conn: &mut Connection<S>,
    name: &str,
) -> Result<Option<DeskRow>, BookFault>
    requires ready { Serves S.Store conn.old }
    ensures { ReadsOffice S.Store conn.old conn.new result
        (λ w. Matches IsDeskAnswer (desk_in w name.now)) }
{
    first_row(
        conn,
        "SELECT digest, next FROM desks WHERE desk = ?1 ORDER BY rowid",
        params![name],
    )
}

/// Reads the kind and the capacity of a published code.
pub fn find_capacity<S: Alter>(
    conn: &mut Connection<S>,
    code: &str,
) -> Result<Option<(Kind, u64)>, BookFault>
    requires ready { Serves S.Store conn.old }
    ensures { ReadsOffice S.Store conn.old conn.new result
        (λ w. Matches IsCapacityAnswer (code_in w.published code.now)) }
{
    first_row(
        conn,
        "SELECT kind, capacity FROM published WHERE code = ?1 ORDER BY rowid",
        params![code],
    )
}

/// Lists the published codes in ascending order.
pub fn list_codes<S: Alter>(
    alloc: Global,
    conn: &mut Connection<S>,
) -> Result<Vec<CodeRow>, BookFault>
    requires ready { Serves S.Store conn.old }
    ensures { ReadsOffice S.Store conn.old conn.new result
        (λ w rows. ListsCodes w.published rows.items) }
{
    list_rows(alloc, conn, LIST_PUBLISHED, &[])
}

// Fails if the store is closed. It reads no row.
fn check_open<S: Alter>(conn: &mut Connection<S>) -> Result<(), BookFault>
    requires ready { Serves S.Store conn.old }
    ensures { ReadsTables S.Store conn.old conn.new result (λ _ _. Unit {0}) }
{
    prepare(conn, OFFICE)?;
    Ok(())
}

/// Lists the plans of a desk by number, from the kept plans.
pub fn list_plans<S: Alter>(
    conn: &mut Connection<S>,
    plans: &KeptPlans,
    desk: &str,
) -> Result<Vec<PlanEntry>, BookFault>
    requires ready { Serves S.Store conn.old }
    requires plans { KeepsPlans (state S.Store conn.old) plans.now }
    ensures { ReadsOffice S.Store conn.old conn.new result
        (λ w rows. ListsPlans (view desk.now w).plans rows.items) }
{
    check_open(conn)?;
    Ok(plans.list(desk)?)
}

/// Counts the plans of a desk, from the kept plans.
pub fn count_plans<S: Alter>(
    conn: &mut Connection<S>,
    plans: &KeptPlans,
    desk: &str,
) -> Result<usize, BookFault>
    requires ready { Serves S.Store conn.old }
    requires plans { KeepsPlans (state S.Store conn.old) plans.now }
    ensures { ReadsOffice S.Store conn.old conn.new result
        (λ w count. count ≡ length (view desk.now w).plans) }
{
    check_open(conn)?;
    Ok(plans.count(desk))
}

// Reads a plan of a desk without its binds and lags.
fn find_plan_part<S: Alter>(
    conn: &mut Connection<S>,
    desk: &str,
    n: u32,
) -> Result<Option<PlanPart>, BookFault>
    requires ready { Serves S.Store conn.old }
    ensures { ReadsOffice S.Store conn.old conn.new result
        (λ w. Matches IsPlanPart (plan_in w desk.now n)) }
{
    first_row(conn, SELECT_PLAN, params![desk, n])
}

// Lists the binds of a plan by place.
fn list_binds<S: Alter>(
    alloc: Global,
    conn: &mut Connection<S>,
    desk: &str,
    n: u32,
) -> Result<Vec<BindEntry>, BookFault>
    requires ready { Serves S.Store conn.old }
    ensures { ReadsOffice S.Store conn.old conn.new result
        (λ w all. map bind_in all.items ≡ places_of (view desk.now w) n) }
{
    list_rows(
        alloc,
        conn,
        "SELECT place, code FROM binds WHERE desk = ?1 AND n = ?2 ORDER BY place, rowid",
        params![desk, n],
    )
}

// Lists the lags of a plan by arc.
fn list_lags<S: Alter>(
    alloc: Global,
    conn: &mut Connection<S>,
    desk: &str,
    n: u32,
) -> Result<Vec<LagEntry>, BookFault>
    requires ready { Serves S.Store conn.old }
    ensures { ReadsOffice S.Store conn.old conn.new result
        (λ w all. map lag_in all.items ≡ lags_of (view desk.now w) n) }
{
    list_rows(
        alloc,
        conn,
        "SELECT src, dst, lag FROM lags WHERE desk = ?1 AND n = ?2 ORDER BY src, dst, rowid",
        params![desk, n],
    )
}

/// Reads a plan of a desk with its binds and lags.
pub fn find_plan<S: Alter>(
    alloc: Global,
    conn: &mut Connection<S>,
    desk: &str,
    n: u64,
) -> Result<Option<PlanRow>, BookFault>
    requires ready { Serves S.Store conn.old }
    ensures { ReadsOffice S.Store conn.old conn.new result
        (λ w. Matches (IsPlanAnswer (view desk.now w))
        (find (has_number n) (view desk.now w).plans)) }
{
    let n = sql_number(n)?;
    let Some(part) = find_plan_part(conn, desk, n)? else {
        return Ok(None);
    };
    let binds = list_binds(alloc, conn, desk, n)?;
    let lags = list_lags(alloc, conn, desk, n)?;
    Ok(Some(PlanRow {
        kind: part.kind,
        name: part.name,
        body: part.body,
        start: part.start,
        days: part.days,
        binds,
        lags,
    }))
}

// Returns whether a query has a row.
fn has_row<S: Alter>(
    conn: &mut Connection<S>,
    text: &str,
    params: &[ValueRef<'_>],
) -> Result<bool, BookFault>
    requires ready { Serves S.Store conn.old }
    requires plain { IsPlain (understood store_schema text.now) }
    requires ours { reads_listing store_schema text.now ≡ false }
    ensures { ReadsTables S.Store conn.old conn.new result
        (λ db. AnyShown text.now db (bound params.now)) }
{
    let rows = rows_of(conn, text, params)?;
    Ok(rows.len() > 0)
}

/// Returns whether a code is published.
pub fn is_published<S: Alter>(conn: &mut Connection<S>, code: &str) -> Result<bool, BookFault>
    requires ready { Serves S.Store conn.old }
    ensures { ReadsOffice S.Store conn.old conn.new result
        (λ w yes. yes ≡ list_any (is_code code.now) w.published) }
{
    has_row(
        conn,
        "SELECT code FROM published WHERE code = ?1 ORDER BY rowid",
        params![code],
    )
}

/// Returns whether a code is bound to a place of a plan.
pub fn is_bound<S: Alter>(
    conn: &mut Connection<S>,
    desk: &str,
    n: u32,
    place: u32,
) -> Result<bool, BookFault>
    requires ready { Serves S.Store conn.old }
    ensures { ReadsOffice S.Store conn.old conn.new result
        (λ w yes. yes ≡ list_any (is_bind desk.now n place) w.binds) }
{
    has_row(
        conn,
        "SELECT code FROM binds WHERE desk = ?1 AND n = ?2 AND place = ?3 ORDER BY rowid",
        params![desk, n, place],
    )
}

/// Returns whether an arc of a plan has a lag.
pub fn has_lag<S: Alter>(
    conn: &mut Connection<S>,
    desk: &str,
    n: u32,
    from: u32,
    to: u32,
) -> Result<bool, BookFault>
    requires ready { Serves S.Store conn.old }
    ensures { ReadsOffice S.Store conn.old conn.new result
        (λ w yes. yes ≡ list_any (is_lag desk.now n from to) w.lags) }
{
    has_row(
        conn,
        "SELECT lag FROM lags WHERE desk = ?1 AND n = ?2 AND src = ?3 AND dst = ?4 ORDER BY rowid",
        params![desk, n, from, to],
    )
}
