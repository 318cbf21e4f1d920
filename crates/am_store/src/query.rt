//! Queries that only read.

ghost use Rattle.std.specs.Prelude.{◌≡◌, false, IfOk};
ghost use Rattle.sqlite.specs.Held.{state};
ghost use Rattle.sqlite.specs.Given.{IsPlain};
ghost use Rattle.sqlite.specs.Listing.{understood};
ghost use Rattle.sqlite.specs.State.{HasCleanDisk, Shown};
ghost use Rattle.sqlite.specs.Values.{bound};
ghost use Rattle.am_store.specs.Failing.{FailsForCause, IsQuery};
ghost use Rattle.am_store.specs.Opening.{Rests};
ghost use Rattle.am_store.specs.Tables.{store_schema};

use crate::refusal::failure_of;
use am_rows::StoreRefusal;
use am_text::Failure;
use sqlite::{Alter, Connection, Row};
use sqlite_value::value::ValueRef;

// The rows that a query shows.
pub(crate) fn rows<S: Alter>(
    conn: &mut Connection<S>,
    sql: &str,
    params: &[ValueRef<'_>],
) -> Result<Vec<Row>, Failure<StoreRefusal>>
    ensures shown { HasCleanDisk (state S.Store conn.new)
        → IfOk result (λ rows. Shown sql.now (bound params.now) (state S.Store conn.old) (state S.Store conn.new)
        rows.items) }
    ensures rests { (HasCleanDisk (state S.Store conn.new)
        → IsPlain (understood (state S.Store conn.old).now.schema sql.now))
        → Rests (state S.Store conn.old) (state S.Store conn.new) }
    ensures clean { HasCleanDisk (state S.Store conn.new) → HasCleanDisk (state S.Store conn.old) }
    ensures idle { conn.old.in_transaction ≡ false → conn.new.in_transaction ≡ false }
    ensures fails { HasCleanDisk (state S.Store conn.new) → (state S.Store conn.old).now.schema ≡ store_schema
        → IsQuery sql.now (bound params.now)
        → FailsForCause (state S.Store conn.old) (state S.Store conn.new) result }
{
    match conn.query_all(sql, params) {
        Ok(rows) => Ok(rows),
        Err(error) => Err(failure_of(error)),
    }
}
