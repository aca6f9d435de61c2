//! A book in SQL.

ghost use Rattle.std.specs.Prelude.{◌≡◌, ◌≢◌, ◌↔◌, false, None, IfOk, IfErr};
ghost use Rattle.sqlite_trees.specs.Tree.{Trees};
ghost use Rattle.sqlite.specs.State.{HasCleanDisk, Survives};
ghost use Rattle.sqlite.specs.Held.{state};
ghost use Rattle.sqlite.specs.Steps.{over_memory};
ghost use Rattle.plan_rows.specs.World.{empty_world};
ghost use Rattle.plan_store.specs.declared.fault.StoreFault.TheVariants.{NotOurs, Version};
ghost use Rattle.plan_store.specs.Tables.{no_schema};
ghost use Rattle.plan_store.specs.Stores.{world_of};
ghost use Rattle.plan_store.specs.BookCalls.{Stands, IsDurable};
ghost use Rattle.plan_store.specs.Creation.{IsNewBook, IsNewStore, IsAsBefore};
ghost use Rattle.plan_store.specs.Adoption.{IsTaken, IsRefused};
ghost use Rattle.plan_store.specs.SqlBooks.{IsServing};

use crate::adoption::take_tables;
use crate::changes::{
    add_plan_in, bind_place, open_desk_in, publish_in, remove_plan_in, set_calendar_in, set_key_in,
    set_lag_in,
};
use crate::creation::{is_empty, make_tables};
use crate::fault::StoreFault;
use crate::kept_plans::KeptPlans;
use crate::keyed_rows::list_by_key;
use crate::leftover::Leftover;
use crate::next_plan::{NextPlan, known_number, next_plan_of};
use crate::queries::{
    count_plans, find_capacity, find_desk, find_plan, list_codes, list_plans, office_in,
};
use crate::reload::reload;
use plan_rows::{
    Book, BookFault, Calls, CodeRow, DeskRow, Kind, Listing, PlanEntry, PlanKind, PlanRow,
    RowsByKey,
};
use sqlite::{Alter, Connection, MemStore};
use std::alloc::Global;
use std::marker::Model;

/// The tables of an office in SQL, on any store. Each call that writes is one transaction.
#[derive(Drop)]
pub struct SqlBook<S: Alter> {
    alloc: Global,
    conn: Connection<S>,
    // counts the calls that write
    calls: Calls,
    // counts the calls that the store refused
    denials: Calls,
    // the number in the desk's row that was read last, until a call writes
    next_plan: Option<NextPlan>,
    // the numbers and kinds of the plans in the tables
    kept_plans: KeptPlans,
}

impl<S: Alter> Model for SqlBook<S> {
    ghost use Rattle.plan_store.specs.SqlBooks.{Counted, book_code, IsServing};
    ghost use Rattle.sqlite.specs.Held.{state};

    ghost Value = { Counted S };

    ghost coded = { book_code S.code };

    ghost view = { λ b. record {
      conn = b.conn;
      made = b.calls.made;
      refused = b.calls.refused;
      denials = b.denials.refused;
    } };

    ghost invariant = { λ b. IsServing (state S.Store b.conn) b.next_plan b.kept_plans };
}

impl<S: Alter> SqlBook<S> {
    /// Creates a book without rows, for an office with this digest of its key. The database must
    /// have no table, index or view. An `Err` returns the connection.
    pub fn create_in(
        alloc: Global,
        conn: Connection<S>,
        digest: &[u8; 32],
    ) -> Result<SqlBook<S>, (StoreFault, Connection<S>)>
        requires outside { (state S.Store conn).in_transaction ≡ false }
        ensures made { IfOk result (λ b. IsNewBook digest.now (state S.Store b.conn)) }
        ensures durable { IfOk result (λ b. IsDurable (state S.Store b.conn)) }
        ensures empty { IfOk result (λ _. (state S.Store conn).now.schema ≡ no_schema) }
        ensures ours { IfErr result
            (λ e. (e.0 ≡ NotOurs) ↔ ((state S.Store conn).now.schema ≢ no_schema)) }
        ensures known { IfErr result (λ e. e.0 ≢ Version) }
        ensures untouched { IfErr result (λ e. e.0 ≡ NotOurs → e.1 ≡ conn) }
        ensures outside { IfErr result (λ e. (state S.Store e.1).in_transaction ≡ false) }
        ensures kept { IfErr result (λ e. IsAsBefore (state S.Store conn) (state S.Store e.1)) }
        ensures crash { IfErr result
            (λ e. Survives (state S.Store conn) (state S.Store e.1) (IsNewStore digest.now)) }
    {
        let mut conn = conn;
        if !is_empty(conn.schema()) {
            return Err((StoreFault::NotOurs, conn));
        }
        if let Err(fault) = make_tables(&mut conn, digest) {
            return Err((fault, conn));
        }
        Ok(SqlBook {
            alloc,
            conn,
            calls: Calls::new(),
            denials: Calls::new(),
            next_plan: None,
            kept_plans: KeptPlans::new(alloc),
        })
    }

    /// Returns the book on a connection whose tables were adopted, with the plans in them.
    pub(crate) fn on_tables(alloc: Global, conn: Connection<S>, kept_plans: KeptPlans) -> SqlBook<S>
        requires { IsServing (state S.Store conn) None kept_plans }
        ensures { result.conn ≡ conn }
    {
        SqlBook {
            alloc,
            conn,
            calls: Calls::new(),
            denials: Calls::new(),
            next_plan: None,
            kept_plans,
        }
    }

    /// Returns the connection, outside a transaction.
    pub fn into_connection(self) -> Connection<S>
        ensures same { result ≡ self.conn }
        ensures outside { (state S.Store result).in_transaction ≡ false }
    {
        let SqlBook {
            alloc: _,
            conn,
            calls: _,
            denials: _,
            next_plan: _,
            kept_plans: _,
        } = self;
        conn
    }
}

impl<S: Alter + Drop> SqlBook<S> {
    /// Opens the book in the tables of a connection. Tables of the first version are migrated to
    /// the second in one transaction, without lags. Other tables are rejected with `NotOurs` or
    /// `Version` and stay as they are.
    pub fn adopt(
        alloc: Global,
        conn: Connection<S>,
    ) -> Result<SqlBook<S>, (StoreFault, Leftover<S>)>
        requires outside { (state S.Store conn).in_transaction ≡ false }
        ensures taken { IfOk result (λ b. HasCleanDisk (state S.Store b.conn)
            → Stands (state S.Store b.conn)
            × IsTaken (state S.Store conn).now (state S.Store b.conn).now) }
        ensures honesty { IfOk result
            (λ b. HasCleanDisk (state S.Store b.conn) → HasCleanDisk (state S.Store conn)) }
        ensures durable { IfOk result (λ b. IsDurable (state S.Store b.conn)) }
        ensures refused { IfErr result (λ e. IsRefused S.Store (state S.Store conn) e.0 e.1) }
    {
        let mut conn = match reload(alloc, conn) {
            Ok(conn) => conn,
            Err((fault, store)) => return Err((fault, Leftover::Store(store))),
        };
        let kept_plans = match take_tables(alloc, &mut conn) {
            Ok(kept) => kept,
            Err(fault) => return Err((fault, Leftover::Connection(conn))),
        };
        Ok(SqlBook {
            alloc,
            conn,
            calls: Calls::new(),
            denials: Calls::new(),
            next_plan: None,
            kept_plans,
        })
    }
}

impl SqlBook<MemStore> {
    /// Creates a book without rows in a database in memory.
    pub fn open_in_memory(alloc: Global, digest: &[u8; 32]) -> Result<SqlBook<MemStore>, StoreFault>
        ensures made { IfOk result (λ b. Stands (state over_memory b.conn)
            × (world_of (state over_memory b.conn).now.trees ≡ empty_world digest.now)) }
        ensures durable { IfOk result (λ b. (trees : Trees)
            → (state over_memory b.conn).may_leave trees
            → trees ≡ (state over_memory b.conn).now.trees) }
        ensures ours { IfErr result (λ fault. fault ≢ NotOurs) }
        ensures known { IfErr result (λ fault. fault ≢ Version) }
    {
        let Ok(conn) = Connection::open_in_memory(alloc) else {
            return Err(StoreFault::NoMemory);
        };
        SqlBook::create_in(alloc, conn, digest).map_err(|(fault, _)| fault)
    }
}

impl<S: Alter> Book for SqlBook<S> {
    ghost use Rattle.std.specs.Prelude.{Some, None, refl};
    ghost use Rattle.plan_store.specs.Stores.{world_of};
    ghost use Rattle.plan_store.specs.SqlBooks.{sql_shelf, sql_now_may, sql_leaves};

    ghost shelf = { sql_shelf S.Store };

    ghost whole = { λ book stands. stands.store.rules };

    ghost now_may = { λ book stands. sql_now_may _ stands (S.Store.stays book.conn.store) };

    ghost leaves = { λ book clean none. sql_leaves _ (S.Store.survives book.conn.store clean)
        (λ trees may store. none (Some (world_of trees)) (trees, may, store, refl))
        (λ trees may other. none None (trees, may, other)) };

    fn office(&mut self) -> Result<[u8; 32], BookFault> {
        let answer = office_in(&mut self.conn);
        self.denials.note(answer)
    }

    fn desk(&mut self, name: &str) -> Result<Option<DeskRow>, BookFault> {
        let answer = find_desk(&mut self.conn, name);
        self.next_plan = next_plan_of(self.alloc, name, &answer);
        self.denials.note(answer)
    }

    fn open_desk(&mut self, name: &str, digest: &[u8; 32]) -> Result<(), BookFault> {
        self.next_plan = None;
        let answer = open_desk_in(&mut self.conn, name, digest);
        let counted = self.calls.count(answer);
        self.denials.note(counted)
    }

    fn set_key(&mut self, name: &str, digest: &[u8; 32]) -> Result<(), BookFault> {
        self.next_plan = None;
        let answer = set_key_in(&mut self.conn, name, digest);
        let counted = self.calls.count(answer);
        self.denials.note(counted)
    }

    fn publish(&mut self, code: &str, kind: Kind, capacity: u64) -> Result<(), BookFault> {
        self.next_plan = None;
        let answer = publish_in(&mut self.conn, code, kind, capacity);
        let counted = self.calls.count(answer);
        self.denials.note(counted)
    }

    fn capacity(&mut self, code: &str) -> Result<Option<(Kind, u64)>, BookFault> {
        let answer = find_capacity(&mut self.conn, code);
        self.denials.note(answer)
    }

    fn capacities(&mut self) -> Result<Vec<CodeRow>, BookFault> {
        let answer = list_codes(self.alloc, &mut self.conn);
        self.denials.note(answer)
    }

    fn plans(&mut self, desk: &str) -> Result<Vec<PlanEntry>, BookFault> {
        let answer = list_plans(&mut self.conn, &self.kept_plans, desk);
        self.denials.note(answer)
    }

    fn count_plans(&mut self, desk: &str) -> Result<usize, BookFault> {
        let answer = count_plans(&mut self.conn, &self.kept_plans, desk);
        self.denials.note(answer)
    }

    fn plan(&mut self, desk: &str, n: u64) -> Result<Option<PlanRow>, BookFault> {
        let answer = find_plan(self.alloc, &mut self.conn, desk, n);
        self.denials.note(answer)
    }

    fn add_plan(
        &mut self,
        desk: &str,
        kind: PlanKind,
        name: &str,
        body: &[u8],
    ) -> Result<(), BookFault> {
        let next = known_number(&self.next_plan, desk);
        self.next_plan = None;
        let answer = add_plan_in(
            &mut self.conn,
            &mut self.kept_plans,
            desk,
            next,
            kind,
            name,
            body,
        );
        let counted = self.calls.count(answer);
        self.denials.note(counted)
    }

    fn remove_plan(&mut self, desk: &str, n: u64) -> Result<(), BookFault> {
        self.next_plan = None;
        let answer = remove_plan_in(&mut self.conn, &mut self.kept_plans, desk, n);
        let counted = self.calls.count(answer);
        self.denials.note(counted)
    }

    fn bind(&mut self, desk: &str, n: u64, place: u64, code: &str) -> Result<(), BookFault> {
        self.next_plan = None;
        let answer = bind_place(&mut self.conn, desk, n, place, code);
        let counted = self.calls.count(answer);
        self.denials.note(counted)
    }

    fn set_calendar(
        &mut self,
        desk: &str,
        n: u64,
        start: &str,
        days: &str,
    ) -> Result<(), BookFault> {
        self.next_plan = None;
        let answer = set_calendar_in(&mut self.conn, desk, n, start, days);
        let counted = self.calls.count(answer);
        self.denials.note(counted)
    }

    fn set_lag(
        &mut self,
        desk: &str,
        n: u64,
        from: u32,
        to: u32,
        lag: u64,
    ) -> Result<(), BookFault> {
        self.next_plan = None;
        let answer = set_lag_in(&mut self.conn, desk, n, from, to, lag);
        let counted = self.calls.count(answer);
        self.denials.note(counted)
    }
}

impl<S: Alter> Listing for SqlBook<S> {
    fn list(&mut self) -> Result<RowsByKey, BookFault> {
        let answer = list_by_key(self.alloc, &mut self.conn);
        self.denials.note(answer)
    }
}
