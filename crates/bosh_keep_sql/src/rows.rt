ghost use Rattle.std.specs.Prelude.{◌≡◌, ◌≢◌, ℕ, pos, ◌++◌, [], ◌∷◌, List};
ghost use Rattle.std.specs.Prelude.{IsFalse, IsTrue, IfErr, IfOk, OnOk};
ghost use Rattle.bosh_keep_sql.specs.Rows.{AreFaulty, IsFaultyRow, row_of, rows_from};
ghost use Rattle.bosh_ports.specs.Contents.{contents};
ghost use Rattle.sqlite.specs.declared.types.Value.TheVariants.{Int};
ghost use Rattle.sqlite.specs.Order.{column};

use crate::LoadFault;
use bosh_ports::KeepFault;
use sqlite::Row;
use sqlite::types::ValueRef;
use std::alloc::Global;

/// The bodies of rows whose positions are the numbers from 0 on, without a gap.
pub(crate) fn bodies_of(alloc: Global, rows: &[Row]) -> Result<Vec<Vec<u8>>, LoadFault>
    ensures found { IfOk result (λ bodies. rows.now ≡ rows_from 0 (contents bodies.items)) }
    ensures fault { IfErr result (λ fault. fault ≢ LoadFault.Memory → AreFaulty rows.now fault) }
{
    let mut bodies = Vec::new(alloc);
    for (place, row) in rows.iter().enumerate() {
        push_body(alloc, &mut bodies, row, place as u64)?;
    }
    Ok(bodies)
}

/// Adds the body of the row at a place.
fn push_body(
    alloc: Global,
    bodies: &mut Vec<Vec<u8>>,
    row: &Row,
    place: u64,
) -> Result<(), LoadFault>
    ensures pushed { OnOk result ((body : List ℕ) × (row.now ≡ row_of place body)
        × (contents bodies.new.items ≡ contents bodies.old.items ++ body ∷ [])) }
    ensures fault { IfErr result (λ fault. fault ≢ LoadFault.Memory → IsFaultyRow place row.now fault) }
{
    let body = body_at(alloc, row, place)?;
    Ok(bodies.push(body)?)
}

/// The body of the row at a place, where it has that position and bytes.
fn body_at(alloc: Global, row: &Row, place: u64) -> Result<Vec<u8>, LoadFault>
    ensures body { IfOk result (λ body. row.now ≡ row_of place body.items) }
    ensures fault { IfErr result (λ fault. fault ≢ LoadFault.Memory → IsFaultyRow place row.now fault) }
{
    if !is_at(row, place) {
        return Err(LoadFault::Gap { place });
    }
    if row.column_count() != 2 {
        return Err(LoadFault::NotABody { place });
    }
    match row.get_ref(1) {
        Ok(ValueRef::Blob(bytes)) => Ok(bytes.to_vec(alloc)?),
        _ => Err(LoadFault::NotABody { place }),
    }
}

/// Whether a row has a position.
fn is_at(row: &Row, place: u64) -> bool
    ensures there { IsTrue result → column row.now 0 ≡ Int (pos place) }
    ensures elsewhere { IsFalse result → column row.now 0 ≢ Int (pos place) }
{
    match row.get_ref(0) {
        Ok(ValueRef::Int(position)) => u64::try_from(position) == Ok(place),
        _ => false,
    }
}

/// Whether two lists have the same bodies.
pub(crate) fn are_same(found: &[Vec<u8>], bodies: &[Vec<u8>]) -> bool
    ensures same { IsTrue result → contents found.now ≡ contents bodies.now }
    ensures others { IsFalse result → contents found.now ≢ contents bodies.now }
{
    found == bodies
}

/// A list of the same bodies.
pub(crate) fn copies_of(alloc: Global, bodies: &[Vec<u8>]) -> Result<Vec<Vec<u8>>, KeepFault>
    ensures copied { IfOk result (λ copies. contents copies.items ≡ contents bodies.now) }
    ensures memory { IfErr result (λ fault. fault ≡ KeepFault.Memory) }
{
    let mut copies = Vec::new(alloc);
    for body in bodies {
        copies.push(body.to_vec(alloc)?)?;
    }
    Ok(copies)
}
