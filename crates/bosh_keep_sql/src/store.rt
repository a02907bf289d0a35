ghost use Rattle.std.specs.Prelude.{◌≡◌, ◌≢◌, ◌≤◌, ◌^◌, ◌++◌, [], ◌∷◌, length, Err, IfErr, IfOk, IsTrue, OnErr, OnOk};
ghost use Rattle.bosh_keep_sql.specs.Holding.{IsSettled, IsTied, IsUnwritten};
ghost use Rattle.bosh_keep_sql.specs.Loads.{DiffersFrom, FailsToFind, FailsToRead, Finds, ListsBodies};
ghost use Rattle.bosh_keep_sql.specs.Rewrites.{RefusesRewrite, Rewrites};
ghost use Rattle.bosh_keep_sql.specs.Rows.{row_of, rows_from};
ghost use Rattle.bosh_keep_sql.specs.Statements.{insert_text, IsOneCommit, RefusesBody, RefusesRun, Runs};
ghost use Rattle.bosh_ports.specs.Contents.{contents};
ghost use Rattle.sqlite.specs.Held.{state};
ghost use Rattle.sqlite.specs.State.{HasCleanDisk};

use crate::LoadFault;
use crate::fault::{fault_of, kept_as, load_fault_of};
use crate::rows::{are_same, bodies_of, copies_of};
use crate::statements::{insert_row, list_rows};
use crate::table::prepare;
use crate::transaction::rewrite;
use bosh_ports::{Bodies, KeepFault};
use sqlite::{Alter, Connection, Row};
use std::alloc::Global;

/// The bodies of a database, in which the table is made where there is none.
pub(crate) fn found<S: Alter>(
    alloc: Global,
    connection: &mut Connection<S>,
) -> Result<Vec<Vec<u8>>, LoadFault>
    ensures found { HasCleanDisk (state S.Store connection.new) → IfOk result (λ bodies.
        Finds S.Store connection.old connection.new (contents bodies.items)) }
    ensures refused { HasCleanDisk (state S.Store connection.new) → IfErr result
        (FailsToFind S.Store connection.old connection.new) }
    ensures tied { IsSettled (state S.Store connection.old) → IfOk result (λ bodies.
        IsTied S.Store connection.new (contents bodies.items)) }
{
    prepare(connection)?;
    listed(alloc, connection)
}

/// The bodies that the table has.
fn listed<S: Alter>(
    alloc: Global,
    connection: &mut Connection<S>,
) -> Result<Vec<Vec<u8>>, LoadFault>
    ensures listed { HasCleanDisk (state S.Store connection.new) → IfOk result (λ bodies.
        ListsBodies S.Store connection.old connection.new (contents bodies.items)) }
    ensures refused { HasCleanDisk (state S.Store connection.new) → IfErr result
        (FailsToRead S.Store connection.old connection.new) }
    ensures unwritten { HasCleanDisk (state S.Store connection.new) → IsSettled (state S.Store connection.old) →
        IsUnwritten (state S.Store connection.old) (state S.Store connection.new) }
    ensures before { HasCleanDisk (state S.Store connection.new) → HasCleanDisk (state S.Store connection.old) }
{
    match list_rows(connection) {
        Ok(rows) => bodies_of(alloc, &rows),
        Err(error) => Err(load_fault_of(error)),
    }
}

/// Adds a body, once its row is inserted.
// Dear to prove: the copy is alive where the row may be refused.
pub(crate) fn put<S: Alter>(
    alloc: Global,
    connection: &mut Connection<S>,
    bodies: &mut Vec<Vec<u8>>,
    body: &[u8],
) -> Result<(), KeepFault>
    ensures stored { HasCleanDisk (state S.Store connection.new) → OnOk result
        (Runs insert_text (row_of (length (contents bodies.old.items)) body.now)
        (state S.Store connection.old) (state S.Store connection.new)) }
    ensures failed { HasCleanDisk (state S.Store connection.new) → result ≡ Err KeepFault.Failed →
        RefusesBody (length (contents bodies.old.items)) body.now
        (state S.Store connection.old) (state S.Store connection.new) KeepFault.Failed }
    ensures tied { IsTied S.Store connection.old (contents bodies.old.items) →
        IsTied S.Store connection.new (contents bodies.new.items) }
    ensures ok { OnOk result (contents bodies.new.items ≡ contents bodies.old.items ++ body.now ∷ []) }
    ensures refused { OnErr result (contents bodies.new.items ≡ contents bodies.old.items) }
    ensures fault { IfErr result (λ fault. fault ≢ KeepFault.Broken) }
{
    let position = next_position(bodies)?;
    bodies.reserve(1)?;
    let copy = body.to_vec(alloc)?;
    insert(connection, position, body)?;
    bodies.push_reserved(copy);
    Ok(())
}

/// Inserts the row of a body.
fn insert<S: Alter>(
    connection: &mut Connection<S>,
    position: u32,
    body: &[u8],
) -> Result<(), KeepFault>
    ensures runs { HasCleanDisk (state S.Store connection.new) → OnOk result
        (Runs insert_text (row_of position body.now) (state S.Store connection.old) (state S.Store connection.new)) }
    ensures refused { HasCleanDisk (state S.Store connection.new) → IfErr result
        (RefusesRun insert_text (row_of position body.now)
        (state S.Store connection.old) (state S.Store connection.new)) }
    ensures written { HasCleanDisk (state S.Store connection.new) → IsSettled (state S.Store connection.old) →
        OnOk result (IsSettled (state S.Store connection.new) × IsTrue (state S.Store connection.old).is_open) }
    ensures unwritten { HasCleanDisk (state S.Store connection.new) → IsSettled (state S.Store connection.old) →
        OnErr result (IsUnwritten (state S.Store connection.old) (state S.Store connection.new)) }
    ensures before { HasCleanDisk (state S.Store connection.new) → HasCleanDisk (state S.Store connection.old) }
    ensures fault { IfErr result (λ fault. fault ≢ KeepFault.Broken) }
{
    match insert_row(connection, position, body) {
        Ok(_count) => Ok(()),
        Err(error) => Err(fault_of(error)),
    }
}

/// The position after those of bodies. There is none past 32 bits.
fn next_position(bodies: &Vec<Vec<u8>>) -> Result<u32, KeepFault>
    ensures position { IfOk result (λ position. position ≡ length (contents bodies.now.items)) }
    ensures fault { IfErr result (λ fault. fault ≡ KeepFault.Failed) }
    ensures past { OnErr result (2 ^ 32 ≤ length (contents bodies.now.items)) }
{
    match u32::try_from(bodies.len()) {
        Ok(position) => Ok(position),
        Err(_) => Err(KeepFault::Failed),
    }
}

/// Puts other bodies in the place of all, once their rows are there in the place of the old ones.
pub(crate) fn put_all<S: Alter>(
    alloc: Global,
    connection: &mut Connection<S>,
    bodies: &mut Vec<Vec<u8>>,
    list: &Bodies,
) -> Result<(), KeepFault>
    ensures ok { OnOk result (contents bodies.new.items ≡ list.now) }
    ensures refused { OnErr result (contents bodies.new.items ≡ contents bodies.old.items) }
    ensures rewritten { HasCleanDisk (state S.Store connection.new) → OnOk result
        (Rewrites S.Store list.now connection.old connection.new) }
    ensures failed { HasCleanDisk (state S.Store connection.new) → result ≡ Err KeepFault.Failed →
        RefusesRewrite S.Store list.now connection.old connection.new KeepFault.Failed }
    ensures tied { IsTied S.Store connection.old (contents bodies.old.items) →
        IsTied S.Store connection.new (contents bodies.new.items) }
    ensures whole { IsOneCommit (state S.Store connection.old) (state S.Store connection.new) }
    ensures fault { IfErr result (λ fault. fault ≢ KeepFault.Broken) }
{
    let copies = copies_of(alloc, list.as_slice())?;
    rewrite(connection, &copies)?;
    *bodies = copies;
    Ok(())
}

/// Whether the table still has the bodies. Where it has not, that is a failure.
pub(crate) fn check<S: Alter>(
    alloc: Global,
    connection: &mut Connection<S>,
    bodies: &[Vec<u8>],
) -> Result<(), KeepFault>
    ensures read { HasCleanDisk (state S.Store connection.new) → OnOk result
        (ListsBodies S.Store connection.old connection.new (contents bodies.now)) }
    ensures failed { HasCleanDisk (state S.Store connection.new) → result ≡ Err KeepFault.Failed →
        DiffersFrom S.Store connection.old connection.new (contents bodies.now) }
    ensures unwritten { HasCleanDisk (state S.Store connection.new) → IsSettled (state S.Store connection.old) →
        IsUnwritten (state S.Store connection.old) (state S.Store connection.new) }
    ensures before { HasCleanDisk (state S.Store connection.new) → HasCleanDisk (state S.Store connection.old) }
    ensures fault { IfErr result (λ fault. fault ≢ KeepFault.Broken) }
{
    match list_rows(connection) {
        Ok(rows) => compare(alloc, &rows, bodies),
        Err(error) => Err(fault_of(error)),
    }
}

/// Whether rows are those of the bodies. Where they are not, that is a failure.
fn compare(alloc: Global, rows: &[Row], bodies: &[Vec<u8>]) -> Result<(), KeepFault>
    ensures same { OnOk result (rows.now ≡ rows_from 0 (contents bodies.now)) }
    ensures failed { result ≡ Err KeepFault.Failed → rows.now ≢ rows_from 0 (contents bodies.now) }
    ensures fault { IfErr result (λ fault. fault ≢ KeepFault.Broken) }
{
    match bodies_of(alloc, rows) {
        Ok(found) => {
            if are_same(&found, bodies) {
                Ok(())
            } else {
                Err(KeepFault::Failed)
            }
        }
        Err(fault) => Err(kept_as(fault)),
    }
}
