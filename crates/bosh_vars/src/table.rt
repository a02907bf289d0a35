//! Values by their names.

ghost use Rattle.std.specs.Prelude.{◌≡◌, ℕ, List, IfErr, IfOk};
ghost use Rattle.std.specs.Str.{IsUtf8};
ghost use Rattle.bosh_yaml.specs.View.{tree_of};
ghost use Rattle.bosh_vars.specs.Filled.{value_for, values_of};
ghost use Rattle.bosh_vars.specs.Result.{Gives};
ghost use Rattle.bosh_vars.specs.Table.{found_in};
ghost use Rattle.bosh_vars.specs.declared.fault.VarsFault.TheVariants.{Memory};

use crate::fault::VarsFault;
use crate::var::Var;
use bosh_yaml::{Node, Str};
use std::alloc::Global;
use std::collections::BTreeMap;

pub(crate) type Table<'a> = BTreeMap<&'a [u8], &'a Node>;

// The values of variables by their names, of several for one name the last.
pub(crate) fn table_of<'a>(alloc: Global, vars: &'a [Var]) -> Result<Table<'a>, VarsFault>
    ensures ok { IfOk result (λ table. (name : List ℕ) → found_in table name ≡ values_of vars.now name) }
    ensures err { IfErr result (λ e. e ≡ Memory) }
{
    let mut table = BTreeMap::new(alloc);
    for var in vars {
        table.insert(var.name.as_bytes(), &var.value)?;
    }
    Ok(table)
}

// The value for a placeholder.
pub(crate) fn value_at<'a>(
    alloc: Global,
    table: &Table<'a>,
    name: &[u8],
) -> Result<&'a Node, VarsFault>
    requires { IsUtf8 name.now }
    ensures { Gives (λ n. tree_of n.now) result (value_for (found_in table.now) name.now) }
{
    match table.get(name).copied() {
        Some(value) => Ok(value),
        None => Err(VarsFault::Unset {
            name: Str::from_utf8(alloc, name)?,
        }),
    }
}
