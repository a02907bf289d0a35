//! What instances hold, by network.
ghost use Rattle.std.specs.Prelude.{◌≡◌, ◌∷◌, ◌++◌, [], ℕ, List, IfOk, OnOk, if◌then◌else◌};
ghost use Rattle.bosh_base.specs.declared.inst.Inst.{Inst};
ghost use Rattle.bosh_pool.specs.Table.{AreByNetwork, entries_of, is_of, listed};

use bosh_base::{Held, Inst, Name, Owner};
use std::alloc::{AllocError, Global};
use std::collections::BTreeMap;

/// The entries of each instance on each network, in their order.
pub(crate) type ByNetwork<'a> = BTreeMap<(&'a Inst, &'a Name), Vec<&'a Held>>;

// The entries under a key, with one more.
fn with<'a>(
    alloc: Global,
    found: Option<Vec<&'a Held>>,
    held: &'a Held,
) -> Result<Vec<&'a Held>, AllocError>
    ensures { IfOk result (λ entries. listed (Some entries) ≡ listed found.entry ++ held.now ∷ []) }
{
    let mut entries = match found {
        None => Vec::new(alloc),
        Some(entries) => entries,
    };
    entries.push(held)?;
    Ok(entries)
}

// Adds an entry where an instance holds it.
fn add<'a>(alloc: Global, held: &'a Held, table: &mut ByNetwork<'a>) -> Result<(), AllocError>
    ensures { OnOk result ((inst : Inst) (net : List ℕ) → entries_of table.new inst net
        ≡ entries_of table.old inst net ++ (if is_of inst net held.now then held.now ∷ [] else [])) }
{
    match &held.owner {
        Owner::Instance(inst) => {
            let key = (inst, &held.net);
            let entries = with(alloc, table.remove(&key), held)?;
            table.insert(key, entries)?;
            Ok(())
        }
        Owner::Compile(_, _) | Owner::Disk(_) => Ok(()),
    }
}

/// The entries that instances hold, by instance and network.
pub(crate) fn by_network(alloc: Global, helds: &[Held]) -> Result<ByNetwork<'_>, AllocError>
    ensures { IfOk result (AreByNetwork helds.now) }
{
    let mut table = BTreeMap::new(alloc);
    for held in helds {
        add(alloc, held, &mut table)?;
    }
    Ok(table)
}
