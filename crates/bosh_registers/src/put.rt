ghost use Rattle.std.specs.Prelude.{◌≡◌, [], ◌∷◌, ◌++◌, None, Some, IsFalse, OnErr, OnOk};
ghost use Rattle.bosh_registers.specs.Grown.{with_disk};
ghost use Rattle.bosh_registers.specs.Store.{Appends};
ghost use Rattle.bosh_ports.specs.Faults.{NeverFalls};

use crate::store::append;
use crate::{Created, PutFault, Register, Tables};
use bosh_base::Disk;
use bosh_ports::Keeper;

/// Adds an item at the end of a list, once its body is in the store.
// It is generic, since an entry that is dropped where the store fails is dear to prove.
pub fn keep<T: Drop, L: Keeper>(
    items: &mut Vec<T>,
    item: T,
    store: &mut L,
    body: &[u8],
) -> Result<(), PutFault>
    requires { IsFalse (L.is_broken store.old) }
    ensures ok { OnOk result (items.new.items ≡ items.old.items ++ item ∷ []) }
    ensures refused { OnErr result (items.new.items ≡ items.old.items) }
    ensures store { Appends L.bodies L.faults L.is_broken result store.old body.now store.new }
    ensures count { NeverFalls (L.faults store.old) (L.faults store.new) }
{
    items.reserve(1)?;
    append(store, body)?;
    items.push_reserved(item);
    Ok(())
}

/// The same of a thing that is made, which gets a slot of its own.
pub fn keep_made<T: Drop, S: Created + Drop, L: Keeper>(
    items: &mut Vec<T>,
    item: T,
    slots: &mut Register<S>,
    thing: S,
    store: &mut L,
    body: &[u8],
) -> Result<(), PutFault>
    requires { IsFalse (L.is_broken store.old) }
    ensures ok { OnOk result (items.new.items ≡ items.old.items ++ item ∷ []) }
    ensures made { OnOk result (slots.new ≡ slots.old ++ Some thing ∷ []) }
    ensures refused { OnErr result (items.new.items ≡ items.old.items) }
    ensures not_made { OnErr result (slots.new ≡ slots.old) }
    ensures store { Appends L.bodies L.faults L.is_broken result store.old body.now store.new }
    ensures count { NeverFalls (L.faults store.old) (L.faults store.new) }
{
    slots.push(thing)?;
    let kept = keep(items, item, store, body);
    if kept.is_err() {
        slots.pop();
    }
    kept
}

/// The same of a disk, which no machine has yet.
// Dear to prove: the tables are taken apart and put together again round a call that may fail.
pub fn keep_held<T: Drop, L: Keeper>(
    items: &mut Vec<T>,
    item: T,
    tables: &mut Tables,
    disk: Disk,
    store: &mut L,
    body: &[u8],
) -> Result<(), PutFault>
    requires { IsFalse (L.is_broken store.old) }
    ensures ok { OnOk result (items.new.items ≡ items.old.items ++ item ∷ []) }
    ensures made { OnOk result (tables.new ≡ with_disk tables.old disk) }
    ensures refused { OnErr result (items.new.items ≡ items.old.items) }
    ensures not_made { OnErr result (tables.new ≡ tables.old) }
    ensures store { Appends L.bodies L.faults L.is_broken result store.old body.now store.new }
    ensures count { NeverFalls (L.faults store.old) (L.faults store.new) }
{
    tables.holders.push(None)?;
    let kept = keep_made(items, item, &mut tables.disks, disk, store, body);
    if kept.is_err() {
        tables.holders.pop();
    }
    kept
}
