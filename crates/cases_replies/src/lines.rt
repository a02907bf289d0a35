//! The lines of replies, as cases give them: each by its fields.
use bosh_base::{
    BuiltKey, CloudDiskLine, HeldDisk, InstanceLine, MachineLine, Mark, OrphanLine, ReleaseLine,
    Seq, Shown,
};
use bosh_yaml::Node;
use cases_given::{CaseFault, all, both, each, field, four, text_at, two};
use std::alloc::Global;

/// The lines of a list, each as it is read.
pub(crate) fn lines<T: Drop, F>(alloc: Global, node: &Node, read: F) -> Result<Seq<T>, CaseFault>
where
    F: Fn(Global, &Node) -> Result<T, CaseFault> + Drop,
    requires { F.IsAlwaysCallable read }
{
    match node {
        Node::List(items) => each(alloc, items.as_slice(), read),
        _ => Err(CaseFault::Form),
    }
}

fn shown(word: &str) -> Result<Shown, CaseFault> {
    match word {
        "Doubt" => Ok(Shown::Doubt),
        "Absent" => Ok(Shown::Absent),
        "Running" => Ok(Shown::Running),
        "Stopped" => Ok(Shown::Stopped),
        _ => Err(CaseFault::Form),
    }
}

pub(crate) fn instance(alloc: Global, node: &Node) -> Result<InstanceLine, CaseFault> {
    let state = shown(text_at(node, "state")?)?;
    let (index, (vm, disk)) = both(
        field(alloc, node, "index"),
        two(alloc, node, ["vm", "disk"]),
    )?;
    let names = two(alloc, node, ["group", "az"]);
    let ((group, az), addrs) = both(names, field(alloc, node, "addrs"))?;
    Ok(InstanceLine {
        group,
        index,
        state,
        az,
        addrs,
        vm,
        disk,
    })
}

pub(crate) fn orphan(alloc: Global, node: &Node) -> Result<OrphanLine, CaseFault> {
    let (disk, size, doubt, inst) = four(alloc, node, ["disk", "size", "doubt", "inst"])?;
    Ok(OrphanLine {
        disk,
        size,
        inst,
        doubt,
    })
}

fn held(alloc: Global, node: &Node) -> Result<HeldDisk, CaseFault> {
    let (disk, mounted) = two(alloc, node, ["disk", "mounted"])?;
    Ok(HeldDisk { disk, mounted })
}

pub(crate) fn machine(alloc: Global, node: &Node) -> Result<MachineLine, CaseFault> {
    let (vm, running) = two(alloc, node, ["vm", "running"])?;
    let held = both(field(alloc, node, "addrs"), all(alloc, node, "disks", held));
    let ((az, owner), (addrs, disks)) = both(two(alloc, node, ["az", "owner"]), held)?;
    Ok(MachineLine {
        vm,
        owner,
        az,
        addrs,
        running,
        disks,
    })
}

pub(crate) fn cloud_disk(alloc: Global, node: &Node) -> Result<CloudDiskLine, CaseFault> {
    let (disk, size, vm, owner) = four(alloc, node, ["disk", "size", "vm", "owner"])?;
    Ok(CloudDiskLine {
        disk,
        owner,
        size,
        vm,
    })
}

fn mark(alloc: Global, node: &Node) -> Result<Mark, CaseFault> {
    let (fingerprint, name) = two(alloc, node, ["fingerprint", "name"])?;
    Ok(Mark { name, fingerprint })
}

pub(crate) fn release(alloc: Global, node: &Node) -> Result<ReleaseLine, CaseFault> {
    let marks = both(
        all(alloc, node, "jobs", mark),
        all(alloc, node, "packages", mark),
    );
    let ((name, version), (jobs, packages)) = both(two(alloc, node, ["name", "version"]), marks)?;
    Ok(ReleaseLine {
        name,
        version,
        jobs,
        packages,
    })
}

pub(crate) fn built(alloc: Global, node: &Node) -> Result<BuiltKey, CaseFault> {
    let digest = field(alloc, node, "digest")?;
    let (name, key) = two(alloc, node, ["name", "key"])?;
    Ok(BuiltKey { name, key, digest })
}
