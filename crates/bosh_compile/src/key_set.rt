//! Keys by which compiled packages are looked up.
ghost use Rattle.std.specs.Prelude.{◌≡◌, ◌++◌, ◌∷◌, [], IfOk, List, OnOk};
ghost use Rattle.bosh_base.specs.declared.key.Key.{Key};
ghost use Rattle.bosh_compile.specs.KeySet.{AreKeys};
ghost use Rattle.bosh_compile.specs.Readiness.{is_among};

use bosh_base::Key;
use std::alloc::{AllocError, Global};
use std::collections::BTreeMap;
use std::marker::Model;

/// Several keys, each of which is found in the time of a logarithm.
#[derive(Drop)]
pub struct KeySet<'a> {
    keys: &'a [Key],
    table: BTreeMap<&'a Key, ()>,
}

impl<'a> Model for KeySet<'a> {
    ghost use Rattle.std.specs.Prelude.{List};
    ghost use Rattle.std.specs.Coded.{codes};
    ghost use Rattle.bosh_base.specs.declared.key.Key.{Key};
    ghost use Rattle.bosh_compile.specs.KeySet.{AreKeys};

    ghost Value = { List Key };

    ghost coded = { Prim.hlevel codes };

    ghost view = { λ set. set.keys.now };

    ghost invariant = { λ set. AreKeys set.keys.now set.table };
}

fn add_key<'a>(key: &'a Key, table: &mut BTreeMap<&'a Key, ()>) -> Result<(), AllocError>
    ensures { OnOk result ((keys : List Key) → AreKeys keys table.old → AreKeys (keys ++ key.now ∷ []) table.new) }
{
    table.insert(key, ())?;
    Ok(())
}

fn table_of(alloc: Global, keys: &[Key]) -> Result<BTreeMap<&Key, ()>, AllocError>
    ensures { IfOk result (AreKeys keys.now) }
{
    let mut table = BTreeMap::new(alloc);
    for key in keys {
        add_key(key, &mut table)?;
    }
    Ok(table)
}

impl<'a> KeySet<'a> {
    pub fn of(alloc: Global, keys: &'a [Key]) -> Result<KeySet<'a>, AllocError>
        ensures { IfOk result (λ set. set ≡ keys.now) }
    {
        let table = table_of(alloc, keys)?;
        Ok(KeySet { keys, table })
    }

    /// Whether a key is one of them.
    pub fn has(&self, key: &'a Key) -> bool
        ensures { result ≡ is_among key.now self.now }
    {
        self.table.contains_key(&key)
    }
}
