ghost use Rattle.std.specs.Prelude.{◌≡◌, ◌≢◌, [], false, IfErr, IsTrue, OnErr, OnOk};
ghost use Rattle.bosh_keep_sql.specs.Holding.{IsSettled, IsUnwritten};
ghost use Rattle.bosh_keep_sql.specs.Rewrites.{delete_text, FailsToInsert, InsertsInside};
ghost use Rattle.bosh_keep_sql.specs.Rewrites.{RefusesInside, RefusesRewrite, RefusesRow, Rewrites, RunsInside};
ghost use Rattle.bosh_keep_sql.specs.Rows.{row_of};
ghost use Rattle.bosh_keep_sql.specs.Statements.{insert_text, IsOneCommit};
ghost use Rattle.bosh_ports.specs.Contents.{contents};
ghost use Rattle.sqlite.specs.Held.{state};
ghost use Rattle.sqlite.specs.State.{HasCleanDisk, KeepsCommit, Survives};

use crate::fault::fault_of;
use bosh_ports::KeepFault;
use sqlite::{Alter, Connection, Transaction, params};

/// Puts the rows of bodies in the place of all rows, in one transaction.
// Dear to prove: the transaction is rolled back wherever a statement is refused.
pub(crate) fn rewrite<S: Alter>(
    connection: &mut Connection<S>,
    bodies: &[Vec<u8>],
) -> Result<(), KeepFault>
    ensures rewritten { HasCleanDisk (state S.Store connection.new) → OnOk result
        (Rewrites S.Store (contents bodies.now) connection.old connection.new) }
    ensures refused { HasCleanDisk (state S.Store connection.new) → IfErr result
        (RefusesRewrite S.Store (contents bodies.now) connection.old connection.new) }
    ensures unwritten { HasCleanDisk (state S.Store connection.new) → IsSettled (state S.Store connection.old) →
        OnErr result (IsUnwritten (state S.Store connection.old) (state S.Store connection.new)) }
    ensures ended { OnOk result (connection.new.in_transaction ≡ false) }
    ensures whole { IsOneCommit (state S.Store connection.old) (state S.Store connection.new) }
    ensures fault { IfErr result (λ fault. fault ≢ KeepFault.Broken) }
{
    if !connection.is_autocommit() {
        return Err(KeepFault::Failed);
    }
    let mut transaction = connection.transaction();
    clear_in(&mut transaction)?;
    insert_all(&mut transaction, bodies)?;
    match transaction.commit() {
        Ok(()) => Ok(()),
        Err(error) => Err(fault_of(error)),
    }
}

fn clear_in<S: Alter>(transaction: &mut Transaction<'_, S>) -> Result<(), KeepFault>
    ensures same_reference { transaction.new.conn.ghost_name ≡ transaction.old.conn.ghost_name }
    ensures runs { HasCleanDisk (state S.Store transaction.new.conn.now) →
        IsTrue transaction.old.conn.now.in_transaction → OnOk result
        (RunsInside S.Store delete_text [] transaction.old.conn.now transaction.new.conn.now) }
    ensures refused { HasCleanDisk (state S.Store transaction.new.conn.now) →
        IsTrue transaction.old.conn.now.in_transaction → IfErr result
        (RefusesInside S.Store delete_text [] transaction.old.conn.now transaction.new.conn.now) }
    ensures kept { HasCleanDisk (state S.Store transaction.new.conn.now) →
        IsTrue transaction.old.conn.now.in_transaction →
        KeepsCommit (state S.Store transaction.old.conn.now) (state S.Store transaction.new.conn.now) }
    ensures survives { Survives (state S.Store transaction.old.conn.now)
        (state S.Store transaction.new.conn.now) (λ _. ⊥) }
    ensures fault { IfErr result (λ fault. fault ≢ KeepFault.Broken) }
{
    match transaction.execute("DELETE FROM bodies", &[]) {
        Ok(_count) => Ok(()),
        Err(error) => Err(fault_of(error)),
    }
}

fn insert_in<S: Alter>(
    transaction: &mut Transaction<'_, S>,
    position: u32,
    body: &[u8],
) -> Result<(), KeepFault>
    ensures same_reference { transaction.new.conn.ghost_name ≡ transaction.old.conn.ghost_name }
    ensures runs { HasCleanDisk (state S.Store transaction.new.conn.now) →
        IsTrue transaction.old.conn.now.in_transaction → OnOk result
        (RunsInside S.Store insert_text (row_of position body.now)
        transaction.old.conn.now transaction.new.conn.now) }
    ensures refused { HasCleanDisk (state S.Store transaction.new.conn.now) →
        IsTrue transaction.old.conn.now.in_transaction → IfErr result
        (RefusesInside S.Store insert_text (row_of position body.now) transaction.old.conn.now transaction.new.conn.now) }
    ensures kept { HasCleanDisk (state S.Store transaction.new.conn.now) →
        IsTrue transaction.old.conn.now.in_transaction →
        KeepsCommit (state S.Store transaction.old.conn.now) (state S.Store transaction.new.conn.now) }
    ensures survives { Survives (state S.Store transaction.old.conn.now)
        (state S.Store transaction.new.conn.now) (λ _. ⊥) }
    ensures fault { IfErr result (λ fault. fault ≢ KeepFault.Broken) }
{
    match transaction.execute(
        "INSERT INTO bodies (position, body) VALUES (?1, ?2)",
        params![position, body],
    ) {
        Ok(_count) => Ok(()),
        Err(error) => Err(fault_of(error)),
    }
}

/// Inserts the row of the body at a place. There is no position past 32 bits.
fn insert_at<S: Alter>(
    transaction: &mut Transaction<'_, S>,
    place: usize,
    body: &[u8],
) -> Result<(), KeepFault>
    ensures same_reference { transaction.new.conn.ghost_name ≡ transaction.old.conn.ghost_name }
    ensures runs { HasCleanDisk (state S.Store transaction.new.conn.now) →
        IsTrue transaction.old.conn.now.in_transaction → OnOk result
        (RunsInside S.Store insert_text (row_of place body.now)
        transaction.old.conn.now transaction.new.conn.now) }
    ensures refused { HasCleanDisk (state S.Store transaction.new.conn.now) →
        IsTrue transaction.old.conn.now.in_transaction → IfErr result
        (RefusesRow S.Store place body.now transaction.old.conn.now transaction.new.conn.now) }
    ensures kept { HasCleanDisk (state S.Store transaction.new.conn.now) →
        IsTrue transaction.old.conn.now.in_transaction →
        KeepsCommit (state S.Store transaction.old.conn.now) (state S.Store transaction.new.conn.now) }
    ensures survives { Survives (state S.Store transaction.old.conn.now)
        (state S.Store transaction.new.conn.now) (λ _. ⊥) }
    ensures fault { IfErr result (λ fault. fault ≢ KeepFault.Broken) }
{
    match u32::try_from(place) {
        Ok(position) => insert_in(transaction, position, body),
        Err(_) => Err(KeepFault::Failed),
    }
}

fn insert_all<S: Alter>(
    transaction: &mut Transaction<'_, S>,
    bodies: &[Vec<u8>],
) -> Result<(), KeepFault>
    ensures same_reference { transaction.new.conn.ghost_name ≡ transaction.old.conn.ghost_name }
    ensures runs { HasCleanDisk (state S.Store transaction.new.conn.now) →
        IsTrue transaction.old.conn.now.in_transaction → OnOk result
        (InsertsInside S.Store (contents bodies.now) transaction.old.conn.now transaction.new.conn.now) }
    ensures refused { HasCleanDisk (state S.Store transaction.new.conn.now) →
        IsTrue transaction.old.conn.now.in_transaction → IfErr result
        (FailsToInsert S.Store (contents bodies.now) transaction.old.conn.now transaction.new.conn.now) }
    ensures kept { HasCleanDisk (state S.Store transaction.new.conn.now) →
        IsTrue transaction.old.conn.now.in_transaction →
        KeepsCommit (state S.Store transaction.old.conn.now) (state S.Store transaction.new.conn.now) }
    ensures survives { Survives (state S.Store transaction.old.conn.now)
        (state S.Store transaction.new.conn.now) (λ _. ⊥) }
    ensures fault { IfErr result (λ fault. fault ≢ KeepFault.Broken) }
{
    for (place, body) in bodies.iter().enumerate() {
        insert_at(transaction, place, body)?;
    }
    Ok(())
}
