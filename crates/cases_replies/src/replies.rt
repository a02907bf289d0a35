//! Replies, as cases give them: a variant by its name, and what it has by its fields.
use crate::lines::{built, cloud_disk, instance, lines, machine, orphan, release};
use crate::tasks::{detail, failed_call, line, problem};
use bosh_base::{CloudListing, Generated, Refusal, ReleaseAdded, ReleaseThere, Reply};
use bosh_yaml::Node;
use cases_given::{CaseFault, Given, all, both, field, four, two, variant};
use std::alloc::Global;

fn added(alloc: Global, node: &Node) -> Result<ReleaseAdded, CaseFault> {
    let (jobs, packages, name, version) = four(
        alloc,
        node,
        ["jobs", "packages", "name", "version"],
    )?;
    Ok(ReleaseAdded {
        name,
        version,
        jobs,
        packages,
    })
}

fn release_there(alloc: Global, node: &Node) -> Result<ReleaseThere, CaseFault> {
    let (name, version) = two(alloc, node, ["name", "version"])?;
    Ok(ReleaseThere { name, version })
}

fn listing(alloc: Global, node: &Node) -> Result<CloudListing, CaseFault> {
    let machines = all(alloc, node, "machines", machine);
    let (machines, disks) = both(machines, all(alloc, node, "disks", cloud_disk))?;
    Ok(CloudListing { machines, disks })
}

fn generated(alloc: Global, node: &Node) -> Result<Generated, CaseFault> {
    let (instances, groups) = two(alloc, node, ["instances", "groups"])?;
    Ok(Generated {
        instances,
        groups,
        calls: field(alloc, node, "calls")?,
    })
}

fn refusal(alloc: Global, node: &Node) -> Result<Refusal, CaseFault> {
    let words = two(alloc, node, ["word", "variant"]);
    let ((word, variant), fields) = both(words, field(alloc, node, "fields"))?;
    Ok(Refusal {
        word,
        variant,
        fields,
    })
}

// A reply that says nothing but its name.
fn bare(name: &str) -> Result<Reply, CaseFault> {
    match name {
        "ConfigUpdated" => Ok(Reply::ConfigUpdated),
        "Written" => Ok(Reply::Written),
        "Restarted" => Ok(Reply::Restarted),
        "Lost" => Ok(Reply::Lost),
        "Nothing" => Ok(Reply::Nothing),
        _ => Err(CaseFault::Form),
    }
}

// A reply that lists something.
fn listed(alloc: Global, name: &str, value: &Node) -> Result<Reply, CaseFault> {
    match name {
        "Instances" => Ok(Reply::Instances(lines(alloc, value, instance)?)),
        "Orphans" => Ok(Reply::Orphans(lines(alloc, value, orphan)?)),
        "Tasks" => Ok(Reply::Tasks(lines(alloc, value, line)?)),
        "Releases" => Ok(Reply::Releases(lines(alloc, value, release)?)),
        "Compiled" => Ok(Reply::Compiled(lines(alloc, value, built)?)),
        "Problems" => Ok(Reply::Problems(lines(alloc, value, problem)?)),
        "Cloud" => Ok(Reply::Cloud(listing(alloc, value)?)),
        "Contents" => Ok(Reply::Contents(Given::of(alloc, value)?)),
        _ => bare(name),
    }
}

// A reply on a task.
fn on_task(alloc: Global, name: &str, value: &Node) -> Result<Reply, CaseFault> {
    match name {
        "Task" => Ok(Reply::Task(detail(alloc, value)?)),
        "TaskFinished" => Ok(Reply::TaskFinished(Given::of(alloc, value)?)),
        "TaskFailed" => Ok(Reply::TaskFailed(failed_call(alloc, value)?)),
        "TaskGone" => Ok(Reply::TaskGone(failed_call(alloc, value)?)),
        _ => listed(alloc, name, value),
    }
}

/// The reply of a name, with what it has.
pub fn reply(alloc: Global, node: &Node) -> Result<Reply, CaseFault> {
    let (name, value) = variant(node)?;
    match name {
        "ReleaseAdded" => Ok(Reply::ReleaseAdded(added(alloc, value)?)),
        "ReleaseThere" => Ok(Reply::ReleaseThere(release_there(alloc, value)?)),
        "StemcellAdded" => Ok(Reply::StemcellAdded(Given::of(alloc, value)?)),
        "StemcellThere" => Ok(Reply::StemcellThere(Given::of(alloc, value)?)),
        "Generated" => Ok(Reply::Generated(generated(alloc, value)?)),
        "Refused" => Ok(Reply::Refused(refusal(alloc, value)?)),
        _ => on_task(alloc, name, value),
    }
}
