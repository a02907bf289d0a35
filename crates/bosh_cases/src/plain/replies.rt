use crate::plain::{variant, word_of};
use crate::{CaseFault, Given, both, field, four, two};
use bosh_base::{
    BuiltKey, CloudDiskLine, CloudListing, Generated, HeldDisk, InstanceLine, MachineLine, Mark,
    OrphanLine, Refusal, ReleaseAdded, ReleaseLine, ReleaseThere, Reply, Shown, Stemcell,
};
use bosh_yaml::Node;
use std::alloc::Global;

/// The keys of a release.
const RELEASE: [&str; 4] = ["name", "version", "jobs", "packages"];

/// `name`, `version`, `jobs` and `packages`.
impl Given for ReleaseAdded {
    fn of(alloc: Global, node: &Node) -> Result<Self, CaseFault> {
        let (name, version, jobs, packages) = four(alloc, node, RELEASE)?;
        Ok(ReleaseAdded {
            name,
            version,
            jobs,
            packages,
        })
    }
}

/// `name` and `version`.
impl Given for ReleaseThere {
    fn of(alloc: Global, node: &Node) -> Result<Self, CaseFault> {
        let (name, version) = two(alloc, node, ["name", "version"])?;
        Ok(ReleaseThere { name, version })
    }
}

/// `os` and `version`.
impl Given for Stemcell {
    fn of(alloc: Global, node: &Node) -> Result<Self, CaseFault> {
        let (os, version) = two(alloc, node, ["os", "version"])?;
        Ok(Stemcell { os, version })
    }
}

/// By its name.
impl Given for Shown {
    fn of(_alloc: Global, node: &Node) -> Result<Self, CaseFault> {
        match word_of(node)? {
            "Doubt" => Ok(Shown::Doubt),
            "Absent" => Ok(Shown::Absent),
            "Running" => Ok(Shown::Running),
            "Stopped" => Ok(Shown::Stopped),
            _ => Err(CaseFault::Form),
        }
    }
}

/// `group`, `index`, `state`, `az`, `addrs`, `vm` and `disk`.
impl Given for InstanceLine {
    fn of(alloc: Global, node: &Node) -> Result<Self, CaseFault> {
        let (index, state, vm, disk) = four(alloc, node, ["index", "state", "vm", "disk"])?;
        let names = two(alloc, node, ["group", "az"]);
        let ((group, az), addrs) = both(names, field(alloc, node, "addrs"))?;
        Ok(InstanceLine {
            group,
            index,
            state,
            az,
            addrs,
            vm,
            disk,
        })
    }
}

/// `disk`, `size`, `inst` and `doubt`.
impl Given for OrphanLine {
    fn of(alloc: Global, node: &Node) -> Result<Self, CaseFault> {
        let (disk, size, doubt, inst) = four(alloc, node, ["disk", "size", "doubt", "inst"])?;
        Ok(OrphanLine {
            disk,
            size,
            inst,
            doubt,
        })
    }
}

/// `disk` and `mounted`.
impl Given for HeldDisk {
    fn of(alloc: Global, node: &Node) -> Result<Self, CaseFault> {
        let (disk, mounted) = two(alloc, node, ["disk", "mounted"])?;
        Ok(HeldDisk { disk, mounted })
    }
}

/// `vm`, `owner`, `az`, `addrs`, `running` and `disks`.
impl Given for MachineLine {
    fn of(alloc: Global, node: &Node) -> Result<Self, CaseFault> {
        let (vm, running) = two(alloc, node, ["vm", "running"])?;
        let (addrs, disks, az, owner) = four(alloc, node, ["addrs", "disks", "az", "owner"])?;
        Ok(MachineLine {
            vm,
            owner,
            az,
            addrs,
            running,
            disks,
        })
    }
}

/// `disk`, `owner`, `size` and `vm`.
impl Given for CloudDiskLine {
    fn of(alloc: Global, node: &Node) -> Result<Self, CaseFault> {
        let (disk, size, vm, owner) = four(alloc, node, ["disk", "size", "vm", "owner"])?;
        Ok(CloudDiskLine {
            disk,
            owner,
            size,
            vm,
        })
    }
}

/// `machines` and `disks`.
impl Given for CloudListing {
    fn of(alloc: Global, node: &Node) -> Result<Self, CaseFault> {
        let (machines, disks) = two(alloc, node, ["machines", "disks"])?;
        Ok(CloudListing { machines, disks })
    }
}

/// `name` and `fingerprint`.
impl Given for Mark {
    fn of(alloc: Global, node: &Node) -> Result<Self, CaseFault> {
        let (fingerprint, name) = two(alloc, node, ["fingerprint", "name"])?;
        Ok(Mark { name, fingerprint })
    }
}

/// `name`, `version`, `jobs` and `packages`.
impl Given for ReleaseLine {
    fn of(alloc: Global, node: &Node) -> Result<Self, CaseFault> {
        let (name, version, jobs, packages) = four(alloc, node, RELEASE)?;
        Ok(ReleaseLine {
            name,
            version,
            jobs,
            packages,
        })
    }
}

/// `name`, `key` and `digest`.
impl Given for BuiltKey {
    fn of(alloc: Global, node: &Node) -> Result<Self, CaseFault> {
        let digest = field(alloc, node, "digest")?;
        let (name, key) = two(alloc, node, ["name", "key"])?;
        Ok(BuiltKey { name, key, digest })
    }
}

/// `instances`, `groups` and `calls`.
impl Given for Generated {
    fn of(alloc: Global, node: &Node) -> Result<Self, CaseFault> {
        let (instances, groups) = two(alloc, node, ["instances", "groups"])?;
        Ok(Generated {
            instances,
            groups,
            calls: field(alloc, node, "calls")?,
        })
    }
}

/// `word`, `variant` and `fields`.
impl Given for Refusal {
    fn of(alloc: Global, node: &Node) -> Result<Self, CaseFault> {
        let words = two(alloc, node, ["word", "variant"]);
        let ((word, variant), fields) = both(words, field(alloc, node, "fields"))?;
        Ok(Refusal {
            word,
            variant,
            fields,
        })
    }
}

// A reply that says nothing but its name.
fn bare(name: &str) -> Result<Reply, CaseFault> {
    match name {
        "ConfigUpdated" => Ok(Reply::ConfigUpdated),
        "Written" => Ok(Reply::Written),
        "Restarted" => Ok(Reply::Restarted),
        "Lost" => Ok(Reply::Lost),
        "Nothing" => Ok(Reply::Nothing),
        _ => Err(CaseFault::Form),
    }
}

// A reply on the cloud, or one with nothing but its name.
fn cloud(alloc: Global, name: &str, value: &Node) -> Result<Reply, CaseFault> {
    match name {
        "Cloud" => Ok(Reply::Cloud(Given::of(alloc, value)?)),
        "Problems" => Ok(Reply::Problems(Given::of(alloc, value)?)),
        "Contents" => Ok(Reply::Contents(Given::of(alloc, value)?)),
        _ => bare(name),
    }
}

// A reply that lists what is recorded, or another.
fn listing(alloc: Global, name: &str, value: &Node) -> Result<Reply, CaseFault> {
    match name {
        "Instances" => Ok(Reply::Instances(Given::of(alloc, value)?)),
        "Orphans" => Ok(Reply::Orphans(Given::of(alloc, value)?)),
        "Tasks" => Ok(Reply::Tasks(Given::of(alloc, value)?)),
        _ => cloud(alloc, name, value),
    }
}

// A reply on what is compiled, or another.
fn compiled(alloc: Global, name: &str, value: &Node) -> Result<Reply, CaseFault> {
    match name {
        "Releases" => Ok(Reply::Releases(Given::of(alloc, value)?)),
        "Compiled" => Ok(Reply::Compiled(Given::of(alloc, value)?)),
        "Generated" => Ok(Reply::Generated(Given::of(alloc, value)?)),
        _ => listing(alloc, name, value),
    }
}

// A reply to an upload, or another.
fn upload(alloc: Global, name: &str, value: &Node) -> Result<Reply, CaseFault> {
    match name {
        "ReleaseAdded" => Ok(Reply::ReleaseAdded(Given::of(alloc, value)?)),
        "ReleaseThere" => Ok(Reply::ReleaseThere(Given::of(alloc, value)?)),
        "StemcellAdded" => Ok(Reply::StemcellAdded(Given::of(alloc, value)?)),
        _ => compiled(alloc, name, value),
    }
}

// A reply on one task, or another.
fn task(alloc: Global, name: &str, value: &Node) -> Result<Reply, CaseFault> {
    match name {
        "Task" => Ok(Reply::Task(Given::of(alloc, value)?)),
        "TaskFinished" => Ok(Reply::TaskFinished(Given::of(alloc, value)?)),
        "TaskFailed" => Ok(Reply::TaskFailed(Given::of(alloc, value)?)),
        _ => upload(alloc, name, value),
    }
}

/// By its name, with what it has.
impl Given for Reply {
    fn of(alloc: Global, node: &Node) -> Result<Self, CaseFault> {
        let (name, value) = variant(node)?;
        match name {
            "StemcellThere" => Ok(Reply::StemcellThere(Given::of(alloc, value)?)),
            "TaskGone" => Ok(Reply::TaskGone(Given::of(alloc, value)?)),
            "Refused" => Ok(Reply::Refused(Given::of(alloc, value)?)),
            _ => task(alloc, name, value),
        }
    }
}
