ghost use Rattle.std.specs.Prelude.{◌≡◌, Bool};
ghost use Rattle.std.specs.List.{list_any};
ghost use Rattle.bosh_rows.specs.SoundSnapshot.{are_distinct, are_in_order, is_built_before, is_compile_row_before};
ghost use Rattle.bosh_rows.specs.SoundSnapshot.{is_listed_well, is_orphan_before, is_row_before, same_built_key};
ghost use Rattle.bosh_rows.specs.SoundSnapshot.{same_deployment, stands_before};

use bosh_base::{BuiltKey, CompileRow, DepRow, Orphan, Row, Snapshot};
use std::cmp::Ordering;

/// Whether instances, compile machines, orphaned disks and compiled keys stand in their order, and nothing twice.
pub(crate) fn is_listed_well(snapshot: &Snapshot) -> bool
    ensures { result ≡ is_listed_well snapshot.now }
{
    stand_once(snapshot.deployments.as_slice())
        && are_in_order(snapshot.rows.as_slice())
        && are_in_order(snapshot.compile_rows.as_slice())
        && are_in_order(snapshot.orphans.as_slice())
        && are_in_order(snapshot.built_keys.as_slice())
        && stand_once(snapshot.built_keys.as_slice())
}

/// What stands in an order.
trait Listed {
    ghost precedes: { Self → Self → Bool };

    fn precedes(&self, other: &Self) -> bool
        ensures { result ≡ precedes self.now other.now };
}

impl Listed for Row {
    ghost precedes = { is_row_before };

    fn precedes(&self, other: &Self) -> bool {
        self.inst.order(&other.inst) == Ordering::Less
    }
}

impl Listed for CompileRow {
    ghost precedes = { is_compile_row_before };

    fn precedes(&self, other: &Self) -> bool {
        let tasks = self.task.cmp(&other.task);
        tasks.then(self.slot.cmp(&other.slot)) == Ordering::Less
    }
}

impl Listed for Orphan {
    ghost precedes = { is_orphan_before };

    fn precedes(&self, other: &Self) -> bool {
        self.disk.cmp(&other.disk) == Ordering::Less
    }
}

impl Listed for BuiltKey {
    ghost precedes = { is_built_before };

    fn precedes(&self, other: &Self) -> bool {
        let names = self.name.cmp(&other.name);
        names.then(self.key.cmp(&other.key)) == Ordering::Less
    }
}

fn are_in_order<T: Listed>(items: &[T]) -> bool
    ensures { result ≡ are_in_order T.precedes items.now }
{
    let mut left = items;
    while let [item, rest @ ..] = left {
        if !stands_before(item, rest) {
            return false;
        }
        left = rest;
    }
    true
}

// It comes before the first of those after it.
fn stands_before<T: Listed>(item: &T, rest: &[T]) -> bool
    ensures { result ≡ stands_before T.precedes item.now rest.now }
{
    match rest {
        [other, ..] => item.precedes(other),
        [] => true,
    }
}

/// What stands once.
trait Single {
    ghost same: { Self → Self → Bool };

    fn same(&self, other: &Self) -> bool
        ensures { result ≡ same self.now other.now };
}

impl Single for DepRow {
    ghost same = { same_deployment };

    fn same(&self, other: &Self) -> bool {
        self.dep == other.dep
    }
}

impl Single for BuiltKey {
    ghost same = { same_built_key };

    fn same(&self, other: &Self) -> bool {
        self.key == other.key
    }
}

fn stand_once<T: Single>(items: &[T]) -> bool
    ensures { result ≡ are_distinct T.same items.now }
{
    let mut left = items;
    while let [item, rest @ ..] = left {
        if is_among(item, rest) {
            return false;
        }
        left = rest;
    }
    true
}

fn is_among<T: Single>(item: &T, others: &[T]) -> bool
    ensures { result ≡ list_any (T.same item.now) others.now }
{
    others.iter().any(|other| item.same(other))
}
