//! What cases tell of records and of the cloud.
use bosh_base::{
    Answer, Disk, DiskRow, DiskWant, Doubt, Inst, Machine, Make, Name, Orphan, Owner, Row, Seq,
    Spec, Vm,
};
use bosh_yaml::Node;
use cases_given::{CaseFault, all, both, field, two};
use cases_words::{of_words, whole};
use std::alloc::Global;

/// What a node tells that may be null.
pub(crate) fn optional<T: Drop, F>(
    alloc: Global,
    node: &Node,
    read: F,
) -> Result<Option<T>, CaseFault>
where
    F: FnOnce(Global, &Node) -> Result<T, CaseFault> + Drop,
    requires { F.IsAlwaysCallable read }
{
    match node {
        Node::Null => Ok(None),
        _ => Ok(Some(read(alloc, node)?)),
    }
}

fn disk_row(alloc: Global, node: &Node) -> Result<DiskRow, CaseFault> {
    of_words(alloc, node)
}

// What an answer tells of a machine: its spec, whether it runs, and whether it is drained.
fn facts(answer: Answer) -> Result<(Option<Spec>, bool, bool), CaseFault> {
    match answer {
        Answer::Facts {
            spec,
            running,
            drained,
        } => Ok((spec, running, drained)),
        _ => Err(CaseFault::Form),
    }
}

fn state(alloc: Global, given: &Node) -> Result<(Option<Spec>, bool, bool), CaseFault> {
    match given.find(b"state") {
        None => Ok((None, false, false)),
        Some(node) => facts(of_words(alloc, node)?),
    }
}

fn doubt(alloc: Global, given: &Node) -> Result<Option<Doubt>, CaseFault> {
    match given.find(b"doubt") {
        None => Ok(None),
        Some(node) => Ok(Some(of_words(alloc, node)?)),
    }
}

fn flag(alloc: Global, given: &Node, key: &str) -> Result<bool, CaseFault> {
    let flag: Option<bool> = field(alloc, given, key)?;
    Ok(flag.unwrap_or(false))
}

fn vm(alloc: Global, given: &Node) -> Result<Option<Vm>, CaseFault> {
    let vm: Option<u64> = field(alloc, given, "vm")?;
    Ok(vm.map(|vm| Vm { vm, agent: vm }))
}

/// A row: `inst`, and `vm`, `state`, `disks`, `doubt` and `lost` where it has them.
pub(crate) fn row(alloc: Global, node: &Node) -> Result<Row, CaseFault> {
    let (vm, lost) = (vm(alloc, node)?, flag(alloc, node, "lost")?);
    let held = both(all(alloc, node, "disks", disk_row), doubt(alloc, node));
    let rest = both(state(alloc, node), held);
    let (inst, (state, (disks, doubt))) = both(field(alloc, node, "inst"), rest)?;
    let (spec, running, drained) = state;
    Ok(Row {
        inst,
        make: None,
        vm,
        spec,
        running,
        drained,
        disks,
        doubt,
        lost,
    })
}

// The number of the call that created it, and what it was made from, which nothing looks at.
fn made(alloc: Global) -> Result<(Name, Make), CaseFault> {
    let dep: Result<Name, CaseFault> = match Name::of(alloc, b"dep") {
        Ok(dep) => Ok(dep),
        Err(fault) => Err(CaseFault::from(fault)),
    };
    both(dep, whole(alloc, "a"))
}

/// A machine: `vm`, `by`, and `state`, `attached`, `mounted` and `silent` where it has them.
pub(crate) fn machine(alloc: Global, node: &Node) -> Result<Machine, CaseFault> {
    let (vm, silent) = (field(alloc, node, "vm")?, flag(alloc, node, "silent")?);
    let held = two(alloc, node, ["attached", "mounted"]);
    let rest = both(state(alloc, node), held);
    let owned = both(field(alloc, node, "by"), made(alloc));
    let ((owner, (dep, make)), (state, (attached, mounted))) = both(owned, rest)?;
    let (spec, running, drained) = state;
    Ok(Machine {
        vm,
        agent: vm,
        owner,
        dep,
        make,
        spec,
        running,
        drained,
        attached,
        mounted,
        silent,
    })
}

/// A disk: `disk`, `of` and `by`.
pub(crate) fn disk(alloc: Global, node: &Node) -> Result<Disk, CaseFault> {
    let (disk, tag) = (field(alloc, node, "disk")?, field(alloc, node, "of")?);
    let (owner, want): (Owner, DiskWant) = both(field(alloc, node, "by"), whole(alloc, "10"))?;
    Ok(Disk {
        disk,
        tag,
        owner,
        want,
        contents: Seq::new(alloc),
    })
}

/// An orphan: `disk`, and `inst`, whose it was.
pub(crate) fn orphan(alloc: Global, node: &Node) -> Result<Orphan, CaseFault> {
    let disk = field(alloc, node, "disk")?;
    let (inst, want): (Inst, DiskWant) = both(field(alloc, node, "inst"), whole(alloc, "10"))?;
    Ok(Orphan {
        disk,
        want,
        inst,
        doubt: None,
    })
}
