//! The test for the tables of an office.

ghost use Rattle.std.specs.Prelude.{◌↔◌, IsTrue};
ghost use Rattle.sqlite.specs.Held.{state};
ghost use Rattle.plan_store.specs.Offices.{HasOfficeTables};

use crate::layout::layout_of;
use sqlite::{Alter, Connection};

/// Returns whether a database has the tables of an office and no other table, index or view. It
/// reads no row, so it doesn't test the version.
pub fn has_office_tables<S: Alter>(conn: &Connection<S>) -> bool
    ensures { IsTrue result ↔ HasOfficeTables (state S.Store conn.now).now.schema }
{
    layout_of(conn.schema()).is_some()
}
