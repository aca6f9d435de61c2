//! The migration of tables of the first version to the second.

ghost use Rattle.std.specs.Prelude.{◌≡◌, false, pos};
ghost use Rattle.sqlite.specs.State.{HasCleanDisk};
ghost use Rattle.sqlite.specs.Held.{state};
ghost use Rattle.plan_store.specs.declared.layout.Layout.TheVariants.{First};
ghost use Rattle.plan_store.specs.Layouts.{IsOfficeAt};
ghost use Rattle.plan_store.specs.Adoption.{Takes};

use crate::fault::StoreFault;
use crate::schema::CREATE_LAGS;
use crate::transaction::run_all;
use sqlite::types::ValueRef;
use sqlite::{Alter, Connection};

/// Adds an empty table of lags and sets the version, in one transaction. A crash leaves tables that
/// it could leave before, or those of the second version.
pub fn migrate<S: Alter>(conn: &mut Connection<S>) -> Result<(), StoreFault>
    requires outside { (state S.Store conn.old).in_transaction ≡ false }
    requires first { HasCleanDisk (state S.Store conn.old)
        → IsOfficeAt First (pos 1) (state S.Store conn.old).now }
    ensures { Takes (state S.Store conn.old) (state S.Store conn.new) result }
{
    let _settled = conn.is_autocommit();
    let none: &[ValueRef<'_>] = &[];
    run_all(
        conn,
        &[
            (CREATE_LAGS, none),
            ("UPDATE meta SET version = 2 WHERE id = 1", none),
        ],
    )?;
    Ok(())
}
