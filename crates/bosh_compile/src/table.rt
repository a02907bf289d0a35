//! The keys of works by number.
ghost use Rattle.std.specs.Prelude.{◌≡◌, IsSome, IfOk};
ghost use Rattle.bosh_compile.specs.Table.{IsTable, IsGraph, node_by, place_in, numbers_by};

use crate::CompileFault;
use bosh_base::{Key, KeyWork, Seq};
use std::alloc::Global;
use std::collections::BTreeMap;

/// For the key of each work the place of a work with that key, which is the key's number.
type Table<'a> = BTreeMap<&'a Key, usize>;

/// A work by numbers: that of its key, and those of the listed keys that it needs.
#[derive(Drop)]
pub(crate) struct Node {
    pub key: usize,
    pub needs: Seq<usize>,
}

fn table_of<'a>(alloc: Global, works: &'a [KeyWork]) -> Result<Table<'a>, CompileFault>
    ensures { IfOk result (IsTable works.now) }
{
    let mut table = BTreeMap::new(alloc);
    for (place, work) in works.iter().enumerate() {
        table.insert(&work.key, place)?;
    }
    Ok(table)
}

fn numbers_of<'a>(
    alloc: Global,
    table: &Table<'a>,
    keys: &'a [Key],
) -> Result<Seq<usize>, CompileFault>
    ensures { IfOk result (λ numbers. numbers ≡ numbers_by (place_in table.now) keys.now) }
{
    let mut numbers = Vec::new(alloc);
    for key in keys {
        if let Some(number) = table.get(&key) {
            numbers.push(*number)?;
        }
    }
    Ok(Seq::from(numbers))
}

fn node_of<'a>(alloc: Global, table: &Table<'a>, work: &'a KeyWork) -> Result<Node, CompileFault>
    requires { IsSome (place_in table.now work.now.key) }
    ensures { IfOk result (λ node. node ≡ node_by (place_in table.now) work.now) }
{
    let needs = numbers_of(alloc, table, work.deps.as_slice())?;
    let key = &work.key;
    match table.get(&key) {
        Some(number) => Ok(Node {
            key: *number,
            needs,
        }),
        None => unreachable!(),
    }
}

/// The works by numbers.
pub(crate) fn graph_of(alloc: Global, works: &[KeyWork]) -> Result<Vec<Node>, CompileFault>
    ensures { IfOk result (λ nodes. IsGraph works.now nodes.items) }
{
    let table = table_of(alloc, works)?;
    let mut nodes = Vec::with_capacity(alloc, works.len())?;
    for work in works {
        nodes.push(node_of(alloc, &table, work)?)?;
    }
    Ok(nodes)
}
