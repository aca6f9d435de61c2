//! The creation of a store.

ghost use Rattle.std.specs.Prelude.{◌≡◌, ◌↔◌, false, IsTrue};
ghost use Rattle.sqlite.specs.Held.{state};
ghost use Rattle.plan_store.specs.Tables.{no_schema};
ghost use Rattle.plan_store.specs.Creation.{Creates};

use crate::fault::StoreFault;
use crate::numbers::digits_of;
use crate::schema::{
    CREATE_BINDS, CREATE_DESKS, CREATE_LAGS, CREATE_META, CREATE_PLANS, CREATE_PUBLISHED,
    INSERT_META,
};
use crate::transaction::run_all;
use sqlite::types::ValueRef;
use sqlite::{Alter, Connection};
use sqlite_schema::schema::Schema;

/// Returns whether a database has no table, index or view.
pub fn is_empty(schema: &Schema) -> bool
    ensures { IsTrue result ↔ (schema.now ≡ no_schema) }
{
    schema.tables.is_empty() && schema.indexes.is_empty() && schema.views.is_empty()
}

/// Creates the tables of an office without rows, in one transaction. The table of lags is last.
pub fn make_tables<S: Alter>(conn: &mut Connection<S>, digest: &[u8; 32]) -> Result<(), StoreFault>
    requires outside { (state S.Store conn.old).in_transaction ≡ false }
    requires empty { (state S.Store conn.old).now.schema ≡ no_schema }
    ensures { Creates (state S.Store conn.old) (state S.Store conn.new) result digest.now }
{
    let _settled = conn.is_autocommit();
    let Ok(digits) = digits_of(digest) else {
        return Err(StoreFault::Store);
    };
    let given: &[ValueRef<'_>] = &[ValueRef::Text(digits.as_slice())];
    let none = &given[..0];
    run_all(
        conn,
        &[
            (CREATE_META, none),
            (CREATE_PUBLISHED, none),
            (CREATE_DESKS, none),
            (CREATE_PLANS, none),
            (CREATE_BINDS, none),
            (CREATE_LAGS, none),
            (INSERT_META, given),
        ],
    )?;
    Ok(())
}
