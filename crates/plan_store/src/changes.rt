//! The changes of an office, each in one transaction.

ghost use Rattle.std.specs.Prelude.{[], IfSome};
ghost use Rattle.plan_rows.specs.Changes.{apply, Publish, OpenDesk, SetKey, AddPlan};
ghost use Rattle.plan_rows.specs.Changes.{RemovePlan, BindPlace, SetCalendar, SetLag};
ghost use Rattle.plan_store.specs.BookCalls.{Serves, ChangesOffice, KeepsRules};
ghost use Rattle.plan_store.specs.BookCalls.{HasNextNumber, numbered_plan};
ghost use Rattle.sqlite.specs.Held.{state};
ghost use Rattle.plan_store.specs.KeptPlans.{KeepsPlans};
ghost use Rattle.plan_store.specs.Edits.{set_capacity, add_code, set_bind, add_bind};
ghost use Rattle.plan_store.specs.Edits.{drop_lag, change_lag, add_lag, put_lag};

use crate::kept_plans::KeptPlans;
use crate::numbers::{digits_of, number_after, sql_number};
use crate::queries::{find_desk, has_lag, is_bound, is_published};
use crate::schema::{INSERT_BIND, INSERT_DESK, INSERT_LAG, INSERT_PLAN, INSERT_PUBLISHED};
use crate::transaction::transact;
use plan_rows::{BookFault, Kind, PlanEntry, PlanKind};
use sqlite::types::ValueRef;
use sqlite::{Alter, Connection, params};

// Sets the capacity of a published code.
fn set_capacity<S: Alter>(
    conn: &mut Connection<S>,
    code: &str,
    capacity: u32,
) -> Result<(), BookFault>
    requires ready { Serves S.Store conn.old }
    requires kept { KeepsRules S.Store conn.old (set_capacity code.now capacity) }
    ensures { ChangesOffice S.Store conn.old conn.new result (set_capacity code.now capacity) }
{
    transact(
        conn,
        &[(
            "UPDATE published SET capacity = ?2 WHERE code = ?1",
            params![code, capacity],
        )],
    )
}

// Publishes a new code.
fn add_code<S: Alter>(
    conn: &mut Connection<S>,
    code: &str,
    kind: Kind,
    capacity: u32,
) -> Result<(), BookFault>
    requires ready { Serves S.Store conn.old }
    requires kept { KeepsRules S.Store conn.old (add_code code.now kind capacity) }
    ensures { ChangesOffice S.Store conn.old conn.new result (add_code code.now kind capacity) }
{
    transact(
        conn,
        &[(INSERT_PUBLISHED, params![code, kind.word(), capacity])],
    )
}

/// Publishes a code, or sets the capacity of a published one.
pub fn publish_in<S: Alter>(
    conn: &mut Connection<S>,
    code: &str,
    kind: Kind,
    capacity: u64,
) -> Result<(), BookFault>
    requires ready { Serves S.Store conn.old }
    requires kept { KeepsRules S.Store conn.old (apply [] (Publish code.now kind capacity)) }
    ensures { ChangesOffice S.Store conn.old conn.new result
        (apply [] (Publish code.now kind capacity)) }
{
    let capacity = sql_number(capacity)?;
    if is_published(conn, code)? {
        set_capacity(conn, code, capacity)
    } else {
        add_code(conn, code, kind, capacity)
    }
}

/// Opens a desk, whose plans are numbered from 1.
pub fn open_desk_in<S: Alter>(
    conn: &mut Connection<S>,
    name: &str,
    digest: &[u8; 32],
) -> Result<(), BookFault>
    requires ready { Serves S.Store conn.old }
    requires kept { KeepsRules S.Store conn.old (apply name.now (OpenDesk digest.now)) }
    ensures { ChangesOffice S.Store conn.old conn.new result
        (apply name.now (OpenDesk digest.now)) }
{
    let digits = digits_of(digest)?;
    transact(
        conn,
        &[(
            INSERT_DESK,
            &[
                ValueRef::Text(name.as_bytes()),
                ValueRef::Text(digits.as_slice()),
            ],
        )],
    )
}

/// Sets the key of a desk.
pub fn set_key_in<S: Alter>(
    conn: &mut Connection<S>,
    name: &str,
    digest: &[u8; 32],
) -> Result<(), BookFault>
    requires ready { Serves S.Store conn.old }
    requires kept { KeepsRules S.Store conn.old (apply name.now (SetKey digest.now)) }
    ensures { ChangesOffice S.Store conn.old conn.new result
        (apply name.now (SetKey digest.now)) }
{
    let digits = digits_of(digest)?;
    transact(
        conn,
        &[(
            "UPDATE desks SET digest = ?2 WHERE desk = ?1",
            &[
                ValueRef::Text(name.as_bytes()),
                ValueRef::Text(digits.as_slice()),
            ],
        )],
    )
}

// Adds a plan with this number, and sets the desk's next number to the one after it.
fn add_numbered<'x, S: Alter>(
    conn: &mut Connection<S>,
    desk: &'x str,
    n: u32,
    kind: PlanKind,
    name: &'x str,
    body: &'x [u8],
) -> Result<(), BookFault>
    requires ready { Serves S.Store conn.old }
    requires kept { KeepsRules S.Store conn.old
        (numbered_plan desk.now n kind name.now body.now) }
    ensures { ChangesOffice S.Store conn.old conn.new result
        (numbered_plan desk.now n kind name.now body.now) }
{
    let next = number_after(n)?;
    let given: &[ValueRef<'_>] = params![desk, n, kind.word(), name, body, next];
    transact(
        conn,
        &[
            ("UPDATE desks SET next = ?6 WHERE desk = ?1", given),
            (INSERT_PLAN, &given[..5]),
        ],
    )
}

// Adds a plan with the desk's next number. The kept list changes after the tables, and by then it
// needs no memory.
fn add_next<'x, S: Alter>(
    conn: &mut Connection<S>,
    plans: &mut KeptPlans,
    desk: &'x str,
    next: u64,
    kind: PlanKind,
    name: &'x str,
    body: &'x [u8],
) -> Result<(), BookFault>
    requires ready { Serves S.Store conn.old }
    requires plans { KeepsPlans (state S.Store conn.old) plans.old }
    requires next { HasNextNumber S.Store conn.old desk.now next }
    requires kept { KeepsRules S.Store conn.old
        (apply desk.now (AddPlan kind name.now body.now)) }
    ensures changes { ChangesOffice S.Store conn.old conn.new result
        (apply desk.now (AddPlan kind name.now body.now)) }
    ensures plans { KeepsPlans (state S.Store conn.new) plans.new }
{
    let n = sql_number(next)?;
    plans.make_list(desk)?;
    let list = plans.list_with(desk, PlanEntry { n: next, kind })?;
    match add_numbered(conn, desk, n, kind, name, body) {
        Ok(()) => {
            plans.set_list(desk, list);
            Ok(())
        }
        Err(fault) => Err(fault),
    }
}

// Reads the desk's next number and adds a plan with it.
fn add_after_reading<'x, S: Alter>(
    conn: &mut Connection<S>,
    plans: &mut KeptPlans,
    desk: &'x str,
    kind: PlanKind,
    name: &'x str,
    body: &'x [u8],
) -> Result<(), BookFault>
    requires ready { Serves S.Store conn.old }
    requires plans { KeepsPlans (state S.Store conn.old) plans.old }
    requires kept { KeepsRules S.Store conn.old
        (apply desk.now (AddPlan kind name.now body.now)) }
    ensures changes { ChangesOffice S.Store conn.old conn.new result
        (apply desk.now (AddPlan kind name.now body.now)) }
    ensures plans { KeepsPlans (state S.Store conn.new) plans.new }
{
    let Some(row) = find_desk(conn, desk)? else {
        return Err(BookFault::Store);
    };
    add_next(conn, plans, desk, row.next, kind, name, body)
}

/// Adds a plan with the desk's next number, which rises by 1. If the number isn't known, it is read
/// from the desk's row.
pub fn add_plan_in<'x, S: Alter>(
    conn: &mut Connection<S>,
    plans: &mut KeptPlans,
    desk: &'x str,
    known: Option<u64>,
    kind: PlanKind,
    name: &'x str,
    body: &'x [u8],
) -> Result<(), BookFault>
    requires ready { Serves S.Store conn.old }
    requires plans { KeepsPlans (state S.Store conn.old) plans.old }
    requires known { IfSome known (HasNextNumber S.Store conn.old desk.now) }
    requires kept { KeepsRules S.Store conn.old
        (apply desk.now (AddPlan kind name.now body.now)) }
    ensures changes { ChangesOffice S.Store conn.old conn.new result
        (apply desk.now (AddPlan kind name.now body.now)) }
    ensures plans { KeepsPlans (state S.Store conn.new) plans.new }
{
    match known {
        Some(next) => add_next(conn, plans, desk, next, kind, name, body),
        None => add_after_reading(conn, plans, desk, kind, name, body),
    }
}

// Removes a plan with its binds and lags from the tables.
fn remove_numbered<S: Alter>(conn: &mut Connection<S>, desk: &str, n: u32) -> Result<(), BookFault>
    requires ready { Serves S.Store conn.old }
    requires kept { KeepsRules S.Store conn.old (apply desk.now (RemovePlan n)) }
    ensures { ChangesOffice S.Store conn.old conn.new result (apply desk.now (RemovePlan n)) }
{
    let given: &[ValueRef<'_>] = params![desk, n];
    transact(
        conn,
        &[
            ("DELETE FROM plans WHERE desk = ?1 AND n = ?2", given),
            ("DELETE FROM binds WHERE desk = ?1 AND n = ?2", given),
            ("DELETE FROM lags WHERE desk = ?1 AND n = ?2", given),
        ],
    )
}

/// Removes a plan with its binds and lags. The kept list changes after the tables, and by then it
/// needs no memory.
pub fn remove_plan_in<S: Alter>(
    conn: &mut Connection<S>,
    plans: &mut KeptPlans,
    desk: &str,
    n: u64,
) -> Result<(), BookFault>
    requires ready { Serves S.Store conn.old }
    requires plans { KeepsPlans (state S.Store conn.old) plans.old }
    requires kept { KeepsRules S.Store conn.old (apply desk.now (RemovePlan n)) }
    ensures changes { ChangesOffice S.Store conn.old conn.new result
        (apply desk.now (RemovePlan n)) }
    ensures plans { KeepsPlans (state S.Store conn.new) plans.new }
{
    let number = sql_number(n)?;
    plans.make_list(desk)?;
    let list = plans.list_without(desk, n)?;
    match remove_numbered(conn, desk, number) {
        Ok(()) => {
            plans.set_list(desk, list);
            Ok(())
        }
        Err(fault) => Err(fault),
    }
}

/// Sets the calendar of a plan.
pub fn set_calendar_in<S: Alter>(
    conn: &mut Connection<S>,
    desk: &str,
    n: u64,
    start: &str,
    days: &str,
) -> Result<(), BookFault>
    requires ready { Serves S.Store conn.old }
    requires kept { KeepsRules S.Store conn.old
        (apply desk.now (SetCalendar n start.now days.now)) }
    ensures { ChangesOffice S.Store conn.old conn.new result
        (apply desk.now (SetCalendar n start.now days.now)) }
{
    let n = sql_number(n)?;
    transact(
        conn,
        &[(
            "UPDATE plans SET start = ?3, days = ?4 WHERE desk = ?1 AND n = ?2",
            params![desk, n, start, days],
        )],
    )
}

// Binds another code to a place.
fn set_bind<S: Alter>(
    conn: &mut Connection<S>,
    desk: &str,
    n: u32,
    place: u32,
    code: &str,
) -> Result<(), BookFault>
    requires ready { Serves S.Store conn.old }
    requires kept { KeepsRules S.Store conn.old (set_bind desk.now n place code.now) }
    ensures { ChangesOffice S.Store conn.old conn.new result
        (set_bind desk.now n place code.now) }
{
    transact(
        conn,
        &[(
            "UPDATE binds SET code = ?4 WHERE desk = ?1 AND n = ?2 AND place = ?3",
            params![desk, n, place, code],
        )],
    )
}

// Binds a code to a place that has none.
fn add_bind<S: Alter>(
    conn: &mut Connection<S>,
    desk: &str,
    n: u32,
    place: u32,
    code: &str,
) -> Result<(), BookFault>
    requires ready { Serves S.Store conn.old }
    requires kept { KeepsRules S.Store conn.old (add_bind desk.now n place code.now) }
    ensures { ChangesOffice S.Store conn.old conn.new result
        (add_bind desk.now n place code.now) }
{
    transact(conn, &[(INSERT_BIND, params![desk, n, place, code])])
}

/// Binds a code to a place. It replaces a code that is bound there.
pub fn bind_place<S: Alter>(
    conn: &mut Connection<S>,
    desk: &str,
    n: u64,
    place: u64,
    code: &str,
) -> Result<(), BookFault>
    requires ready { Serves S.Store conn.old }
    requires kept { KeepsRules S.Store conn.old (apply desk.now (BindPlace n place code.now)) }
    ensures { ChangesOffice S.Store conn.old conn.new result
        (apply desk.now (BindPlace n place code.now)) }
{
    let n = sql_number(n)?;
    let place = sql_number(place)?;
    if is_bound(conn, desk, n, place)? {
        set_bind(conn, desk, n, place, code)
    } else {
        add_bind(conn, desk, n, place, code)
    }
}

// Removes the lag of an arc.
fn drop_lag<S: Alter>(
    conn: &mut Connection<S>,
    desk: &str,
    n: u32,
    from: u32,
    to: u32,
) -> Result<(), BookFault>
    requires ready { Serves S.Store conn.old }
    requires kept { KeepsRules S.Store conn.old (drop_lag desk.now n from to) }
    ensures { ChangesOffice S.Store conn.old conn.new result (drop_lag desk.now n from to) }
{
    transact(
        conn,
        &[(
            "DELETE FROM lags WHERE desk = ?1 AND n = ?2 AND src = ?3 AND dst = ?4",
            params![desk, n, from, to],
        )],
    )
}

// A lag of a plan, with numbers that statements take.
#[derive(Clone, Copy)]
struct PlanLag {
    n: u32,
    from: u32,
    to: u32,
    lag: u32,
}

// Changes the lag of an arc that has one.
fn change_lag<S: Alter>(conn: &mut Connection<S>, desk: &str, row: PlanLag) -> Result<(), BookFault>
    requires ready { Serves S.Store conn.old }
    requires kept { KeepsRules S.Store conn.old
        (change_lag desk.now row.n row.from row.to row.lag) }
    ensures { ChangesOffice S.Store conn.old conn.new result
        (change_lag desk.now row.n row.from row.to row.lag) }
{
    transact(
        conn,
        &[(
            "UPDATE lags SET lag = ?5 WHERE desk = ?1 AND n = ?2 AND src = ?3 AND dst = ?4",
            params![desk, row.n, row.from, row.to, row.lag],
        )],
    )
}

// Adds the lag of an arc that has none.
fn add_lag<S: Alter>(conn: &mut Connection<S>, desk: &str, row: PlanLag) -> Result<(), BookFault>
    requires ready { Serves S.Store conn.old }
    requires kept { KeepsRules S.Store conn.old
        (add_lag desk.now row.n row.from row.to row.lag) }
    ensures { ChangesOffice S.Store conn.old conn.new result
        (add_lag desk.now row.n row.from row.to row.lag) }
{
    transact(
        conn,
        &[(INSERT_LAG, params![desk, row.n, row.from, row.to, row.lag])],
    )
}

// Sets the lag of an arc to a number above 0.
fn put_lag<S: Alter>(conn: &mut Connection<S>, desk: &str, row: PlanLag) -> Result<(), BookFault>
    requires ready { Serves S.Store conn.old }
    requires kept { KeepsRules S.Store conn.old
        (put_lag desk.now row.n row.from row.to row.lag) }
    ensures { ChangesOffice S.Store conn.old conn.new result
        (put_lag desk.now row.n row.from row.to row.lag) }
{
    if has_lag(conn, desk, row.n, row.from, row.to)? {
        change_lag(conn, desk, row)
    } else {
        add_lag(conn, desk, row)
    }
}

/// Sets the lag of an arc. 0 removes it.
pub fn set_lag_in<S: Alter>(
    conn: &mut Connection<S>,
    desk: &str,
    n: u64,
    from: u32,
    to: u32,
    lag: u64,
) -> Result<(), BookFault>
    requires ready { Serves S.Store conn.old }
    requires kept { KeepsRules S.Store conn.old (apply desk.now (SetLag n from to lag)) }
    ensures { ChangesOffice S.Store conn.old conn.new result
        (apply desk.now (SetLag n from to lag)) }
{
    let n = sql_number(n)?;
    let lag = sql_number(lag)?;
    if lag == 0 {
        drop_lag(conn, desk, n, from, to)
    } else {
        put_lag(conn, desk, PlanLag { n, from, to, lag })
    }
}
