ghost use Rattle.std.specs.Prelude.{◌≡◌, [], ◌∷◌, IfErr, IfOk, IsFalse, IsTrue, OnOk};
ghost use Rattle.bosh_keep_sql.specs.Holding.{IsSettled, IsUnwritten};
ghost use Rattle.bosh_keep_sql.specs.Loads.{FailsToPrepare, IsOurs, IsPrepared, IsSchema};
ghost use Rattle.bosh_keep_sql.specs.Loads.{RefusesQuery, RefusesTable, Shows};
ghost use Rattle.bosh_keep_sql.specs.Statements.{make_text, Runs, schema_text};
ghost use Rattle.sqlite.specs.Held.{state};
ghost use Rattle.sqlite.specs.State.{HasCleanDisk};

use crate::LoadFault;
use crate::fault::load_fault_of;
use crate::statements::{list_tables, make_table};
use sqlite::types::ValueRef;
use sqlite::{Alter, Connection, Row};

const TABLE: &str = "CREATE TABLE bodies (position INTEGER PRIMARY KEY, body BLOB NOT NULL) STRICT";

/// What a database has.
#[derive(Clone, Copy)]
pub(crate) enum Contents {
    Nothing,
    /// The table of a keeper alone.
    Table,
    Other,
}

/// Makes the table in a database that has nothing, and refuses one that has anything else than it.
pub(crate) fn prepare<S: Alter>(connection: &mut Connection<S>) -> Result<(), LoadFault>
    ensures ok { HasCleanDisk (state S.Store connection.new) → OnOk result
        (IsPrepared S.Store connection.old connection.new) }
    ensures refused { HasCleanDisk (state S.Store connection.new) → IfErr result
        (FailsToPrepare S.Store connection.old connection.new) }
    ensures settled { HasCleanDisk (state S.Store connection.new) → IsSettled (state S.Store connection.old) →
        IsSettled (state S.Store connection.new) }
    ensures before { HasCleanDisk (state S.Store connection.new) → HasCleanDisk (state S.Store connection.old) }
{
    match contents_of(connection) {
        Ok(Contents::Nothing) => make(connection),
        Ok(Contents::Table) => Ok(()),
        Ok(Contents::Other) => Err(LoadFault::Foreign),
        Err(fault) => Err(fault),
    }
}

/// Makes the table.
fn make<S: Alter>(connection: &mut Connection<S>) -> Result<(), LoadFault>
    ensures ok { HasCleanDisk (state S.Store connection.new) → OnOk result
        (Runs make_text [] (state S.Store connection.old) (state S.Store connection.new)) }
    ensures refused { HasCleanDisk (state S.Store connection.new) → IfErr result
        (RefusesTable S.Store connection.old connection.new) }
    ensures settled { HasCleanDisk (state S.Store connection.new) → IsSettled (state S.Store connection.old) →
        IsSettled (state S.Store connection.new) }
    ensures before { HasCleanDisk (state S.Store connection.new) → HasCleanDisk (state S.Store connection.old) }
{
    match make_table(connection) {
        Ok(_count) => Ok(()),
        Err(error) => Err(load_fault_of(error)),
    }
}

/// What a database has.
fn contents_of<S: Alter>(connection: &mut Connection<S>) -> Result<Contents, LoadFault>
    ensures shown { HasCleanDisk (state S.Store connection.new) → IfOk result
        (Shows S.Store connection.old connection.new) }
    ensures refused { HasCleanDisk (state S.Store connection.new) → IfErr result
        (RefusesQuery S.Store schema_text connection.old connection.new) }
    ensures unwritten { HasCleanDisk (state S.Store connection.new) → IsSettled (state S.Store connection.old) →
        IsUnwritten (state S.Store connection.old) (state S.Store connection.new) }
    ensures before { HasCleanDisk (state S.Store connection.new) → HasCleanDisk (state S.Store connection.old) }
{
    match list_tables(connection) {
        Ok(rows) => Ok(contents_by(&rows)),
        Err(error) => Err(load_fault_of(error)),
    }
}

/// What a database has, by the rows of its schema.
fn contents_by(rows: &[Row]) -> Contents
    ensures { IsSchema rows.now result }
{
    match rows {
        [] => Contents::Nothing,
        [row] if is_ours(row) => Contents::Table,
        _ => Contents::Other,
    }
}

/// Whether a row of the schema is what makes the table.
fn is_ours(row: &Row) -> bool
    ensures ours { IsTrue result → IsOurs row.now }
    ensures others { IsFalse result → ¬ IsOurs row.now }
{
    match row.get_ref(0) {
        Ok(ValueRef::Text(bytes)) => bytes == TABLE.as_bytes(),
        _ => false,
    }
}
