ghost use Rattle.std.specs.Prelude.{[], Err, IfErr, IfOk, IsTrue, OnErr, OnOk};
ghost use Rattle.bosh_keep_sql.specs.Holding.{IsSettled, IsUnwritten};
ghost use Rattle.bosh_keep_sql.specs.Rows.{row_of};
ghost use Rattle.bosh_keep_sql.specs.Statements.{insert_text, list_text, make_text, schema_text};
ghost use Rattle.sqlite.specs.Held.{state};
ghost use Rattle.sqlite.specs.State.{CommitsBy, Executes, FailsToQuery, HasCleanDisk, Shown, Survives};

use sqlite::{Alter, Connection, Error, Row, params};

/// Makes the table.
pub(crate) fn make_table<S: Alter>(connection: &mut Connection<S>) -> Result<usize, Error>
    ensures runs { HasCleanDisk (state S.Store connection.new) →
        Executes make_text [] (state S.Store connection.old) (state S.Store connection.new) result }
    ensures settled { HasCleanDisk (state S.Store connection.new) → IsSettled (state S.Store connection.old) →
        IsSettled (state S.Store connection.new) }
    ensures before { HasCleanDisk (state S.Store connection.new) → HasCleanDisk (state S.Store connection.old) }
{
    connection.execute(
        "CREATE TABLE bodies (position INTEGER PRIMARY KEY, body BLOB NOT NULL) STRICT",
        &[],
    )
}

/// All rows by position.
pub(crate) fn list_rows<S: Alter>(connection: &mut Connection<S>) -> Result<Vec<Row>, Error>
    ensures shown { HasCleanDisk (state S.Store connection.new) → IfOk result (λ rows.
        Shown list_text [] (state S.Store connection.old) (state S.Store connection.new) rows.items) }
    ensures refused { HasCleanDisk (state S.Store connection.new) → IfErr result (λ e.
        FailsToQuery list_text [] (state S.Store connection.old) (state S.Store connection.new) e) }
    ensures unwritten { HasCleanDisk (state S.Store connection.new) → IsSettled (state S.Store connection.old) →
        IsUnwritten (state S.Store connection.old) (state S.Store connection.new) }
    ensures before { HasCleanDisk (state S.Store connection.new) → HasCleanDisk (state S.Store connection.old) }
{
    connection.query_all("SELECT position, body FROM bodies ORDER BY position", &[])
}

/// Inserts a row.
pub(crate) fn insert_row<S: Alter>(
    connection: &mut Connection<S>,
    position: u32,
    body: &[u8],
) -> Result<usize, Error>
    ensures runs { HasCleanDisk (state S.Store connection.new) →
        Executes insert_text (row_of position body.now)
        (state S.Store connection.old) (state S.Store connection.new) result }
    ensures written { HasCleanDisk (state S.Store connection.new) → IsSettled (state S.Store connection.old) →
        OnOk result (IsSettled (state S.Store connection.new) × IsTrue (state S.Store connection.old).is_open) }
    ensures unwritten { HasCleanDisk (state S.Store connection.new) → IsSettled (state S.Store connection.old) →
        OnErr result (IsUnwritten (state S.Store connection.old) (state S.Store connection.new)) }
    ensures before { HasCleanDisk (state S.Store connection.new) → HasCleanDisk (state S.Store connection.old) }
{
    connection.execute(
        "INSERT INTO bodies (position, body) VALUES (?1, ?2)",
        params![position, body],
    )
}

/// The texts that make what the database has.
pub(crate) fn list_tables<S: Alter>(connection: &mut Connection<S>) -> Result<Vec<Row>, Error>
    ensures shown { HasCleanDisk (state S.Store connection.new) → IfOk result (λ rows.
        Shown schema_text [] (state S.Store connection.old) (state S.Store connection.new) rows.items) }
    ensures refused { HasCleanDisk (state S.Store connection.new) → IfErr result (λ e.
        FailsToQuery schema_text [] (state S.Store connection.old) (state S.Store connection.new) e) }
    ensures unwritten { HasCleanDisk (state S.Store connection.new) → IsSettled (state S.Store connection.old) →
        IsUnwritten (state S.Store connection.old) (state S.Store connection.new) }
    ensures before { HasCleanDisk (state S.Store connection.new) → HasCleanDisk (state S.Store connection.old) }
{
    connection.query_all("SELECT sql FROM sqlite_schema", &[])
}
