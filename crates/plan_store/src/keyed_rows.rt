//! All rows of an office, in the order of their keys.

ghost use Rattle.std.specs.Prelude.{◌≡◌, map};
ghost use Rattle.plan_rows.specs.Plans.{in_order};
ghost use Rattle.plan_rows.specs.Tables.{desk_kept, bind_kept, lag_kept};
ghost use Rattle.plan_store.specs.BookCalls.{Serves, ReadsOffice};
ghost use Rattle.plan_rows.specs.KeyedRows.{AreRowsByKey, AreDeskTables, ArePlanTables};
ghost use Rattle.plan_rows.specs.KeyedRows.{desk_before, plan_key_before, bind_key_before};
ghost use Rattle.plan_rows.specs.KeyedRows.{lag_key_before, key_of, key_in};
ghost use Rattle.plan_store.specs.KeyedRows.{ShowsDeskRecord, ShowsPlanKey};
ghost use Rattle.plan_store.specs.KeyedRows.{ShowsBindRecord, ShowsLagRecord};

use crate::cells::{digest_at, number_at, small_at, text_at};
use crate::queries::{list_codes, list_rows, office_in};
use crate::query_rows::FromRow;
use crate::schema::{LIST_BINDS, LIST_DESKS, LIST_LAGS};
use plan_rows::{BindRecord, BookFault, CodeRow, DeskRecord, LagRecord, PlanKey, RowsByKey};
use sqlite::{Alter, Connection, Row};
use std::alloc::Global;

impl FromRow for DeskRecord {
    ghost shows = { ShowsDeskRecord };

    fn from_row(row: &Row) -> Result<DeskRecord, BookFault> {
        Ok(DeskRecord {
            desk: text_at(row, 0)?,
            digest: digest_at(row, 1)?,
            next: number_at(row, 2)?,
        })
    }
}

impl FromRow for PlanKey {
    ghost shows = { ShowsPlanKey };

    fn from_row(row: &Row) -> Result<PlanKey, BookFault> {
        Ok(PlanKey {
            desk: text_at(row, 0)?,
            n: number_at(row, 1)?,
        })
    }
}

impl FromRow for BindRecord {
    ghost shows = { ShowsBindRecord };

    fn from_row(row: &Row) -> Result<BindRecord, BookFault> {
        Ok(BindRecord {
            desk: text_at(row, 0)?,
            n: number_at(row, 1)?,
            place: number_at(row, 2)?,
            code: text_at(row, 3)?,
        })
    }
}

impl FromRow for LagRecord {
    ghost shows = { ShowsLagRecord };

    fn from_row(row: &Row) -> Result<LagRecord, BookFault> {
        Ok(LagRecord {
            desk: text_at(row, 0)?,
            n: number_at(row, 1)?,
            from: small_at(row, 2)?,
            to: small_at(row, 3)?,
            lag: number_at(row, 4)?,
        })
    }
}

// Lists the desks by name.
fn list_desks<S: Alter>(
    alloc: Global,
    conn: &mut Connection<S>,
) -> Result<Vec<DeskRecord>, BookFault>
    requires ready { Serves S.Store conn.old }
    ensures { ReadsOffice S.Store conn.old conn.new result
        (λ w rows. map desk_kept rows.items ≡ in_order desk_before w.desks) }
{
    list_rows(alloc, conn, LIST_DESKS, &[])
}

// Lists the keys of all plans by desk and number.
fn list_plan_keys<S: Alter>(
    alloc: Global,
    conn: &mut Connection<S>,
) -> Result<Vec<PlanKey>, BookFault>
    requires ready { Serves S.Store conn.old }
    ensures { ReadsOffice S.Store conn.old conn.new result
        (λ w rows. map key_in rows.items ≡ map key_of (in_order plan_key_before w.plans)) }
{
    list_rows(
        alloc,
        conn,
        "SELECT desk, n FROM plans ORDER BY desk, n, rowid",
        &[],
    )
}

// Lists the binds by plan and place.
fn list_all_binds<S: Alter>(
    alloc: Global,
    conn: &mut Connection<S>,
) -> Result<Vec<BindRecord>, BookFault>
    requires ready { Serves S.Store conn.old }
    ensures { ReadsOffice S.Store conn.old conn.new result
        (λ w rows. map bind_kept rows.items ≡ in_order bind_key_before w.binds) }
{
    list_rows(alloc, conn, LIST_BINDS, &[])
}

// Lists the lags by plan and arc.
fn list_all_lags<S: Alter>(
    alloc: Global,
    conn: &mut Connection<S>,
) -> Result<Vec<LagRecord>, BookFault>
    requires ready { Serves S.Store conn.old }
    ensures { ReadsOffice S.Store conn.old conn.new result
        (λ w rows. map lag_kept rows.items ≡ in_order lag_key_before w.lags) }
{
    list_rows(alloc, conn, LIST_LAGS, &[])
}

// Reads the digest of the office's key, the published codes and the desks.
fn read_desk_tables<S: Alter>(
    alloc: Global,
    conn: &mut Connection<S>,
) -> Result<([u8; 32], Vec<CodeRow>, Vec<DeskRecord>), BookFault>
    requires ready { Serves S.Store conn.old }
    ensures { ReadsOffice S.Store conn.old conn.new result
        (λ w rows. AreDeskTables w rows.0 rows.1.items rows.2.items) }
{
    let office = office_in(conn)?;
    let published = list_codes(alloc, conn)?;
    let desks = list_desks(alloc, conn)?;
    Ok((office, published, desks))
}

// Reads the keys of plans, the binds and the lags.
fn read_plan_tables<S: Alter>(
    alloc: Global,
    conn: &mut Connection<S>,
) -> Result<(Vec<PlanKey>, Vec<BindRecord>, Vec<LagRecord>), BookFault>
    requires ready { Serves S.Store conn.old }
    ensures { ReadsOffice S.Store conn.old conn.new result
        (λ w rows. ArePlanTables w rows.0.items rows.1.items rows.2.items) }
{
    let plans = list_plan_keys(alloc, conn)?;
    let binds = list_all_binds(alloc, conn)?;
    let lags = list_all_lags(alloc, conn)?;
    Ok((plans, binds, lags))
}

/// Lists all rows by their keys.
pub fn list_by_key<S: Alter>(
    alloc: Global,
    conn: &mut Connection<S>,
) -> Result<RowsByKey, BookFault>
    requires ready { Serves S.Store conn.old }
    ensures { ReadsOffice S.Store conn.old conn.new result
        (λ w. AreRowsByKey w) }
{
    let (office, published, desks) = read_desk_tables(alloc, conn)?;
    let (plans, binds, lags) = read_plan_tables(alloc, conn)?;
    Ok(RowsByKey {
        office,
        published,
        desks,
        plans,
        binds,
        lags,
    })
}
