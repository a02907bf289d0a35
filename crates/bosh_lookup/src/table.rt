//! Tables of things by their names.
ghost use Rattle.std.specs.Prelude.{◌≡◌, ◌++◌, ◌∷◌, [], List, IfOk, OnOk};
ghost use Rattle.std.specs.List.{list_any};
ghost use Rattle.std.specs.Option.{option_copied};
ghost use Rattle.std.specs.Str.{bytes_eq};
ghost use Rattle.bosh_lookup.specs.Table.{IsAdded, IsTable, first_named};

use crate::Named;
use std::alloc::{AllocError, Global};
use std::collections::BTreeMap;

/// What is found under a name.
pub type Table<'a, V> = BTreeMap<&'a [u8], V>;

/// Puts a value under a name, unless the name has one.
pub fn add<'a, V: Drop>(
    table: &mut Table<'a, V>,
    name: &'a [u8],
    value: V,
) -> Result<(), AllocError>
    ensures { OnOk result (IsAdded table.old name.now value table.new) }
{
    if table.contains_key(name) {
        return Ok(());
    }
    table.insert(name, value)?;
    Ok(())
}

// Adds a thing under its name, unless one of its name is there.
fn add_thing<'a, T: Named>(table: &mut Table<'a, &'a T>, thing: &'a T) -> Result<(), AllocError>
    ensures { OnOk result ((all : List T) → IsTable T.name_of all table.old
        → IsTable T.name_of (all ++ thing.now ∷ []) table.new) }
{
    add(table, thing.name(), thing)?;
    Ok(())
}

/// The table of several things. Of two of one name it has the first.
pub fn table_of<T: Named>(alloc: Global, things: &[T]) -> Result<Table<'_, &T>, AllocError>
    ensures { IfOk result (IsTable T.name_of things.now) }
{
    let mut table = BTreeMap::new(alloc);
    for thing in things {
        add_thing(&mut table, thing)?;
    }
    Ok(table)
}

/// What a table has under a name. It takes a logarithm of the number of the things.
pub fn find<'a, T: Named>(table: &Table<'a, &'a T>, name: &[u8]) -> Option<&'a T>
    ensures { (all : List T) → IsTable T.name_of all table.now → option_copied result ≡ first_named T.name_of all name.now }
{
    table.get(name).copied()
}

/// Whether a table has something under a name.
pub fn has<'a, T: Named>(table: &Table<'a, &'a T>, name: &[u8]) -> bool
    ensures { (all : List T) → IsTable T.name_of all table.now
        → result ≡ list_any (λ thing. bytes_eq (T.name_of thing) name.now) all }
{
    table.contains_key(name)
}
