//! Examinations.
use crate::told::{disk, machine, optional, orphan, row};
use bosh_base::{Disk, Machine, Name, Orphan, Problem, Reply, Row, Seq};
use bosh_cck::examine;
use bosh_yaml::Node;
use cases_given::{CaseFault, Given, all, both};
use std::alloc::Global;

type Records = (Seq<Row>, Seq<Orphan>);

type Slots = (Seq<Option<Machine>>, Seq<Option<Disk>>);

fn records(alloc: Global, given: &Node) -> Result<Records, CaseFault> {
    both(
        all(alloc, given, "rows", row),
        all(alloc, given, "orphans", orphan),
    )
}

fn slots(alloc: Global, given: &Node) -> Result<Slots, CaseFault> {
    both(
        all(
            alloc,
            given,
            "machines",
            |alloc, node| optional(alloc, node, machine),
        ),
        all(
            alloc,
            given,
            "disks",
            |alloc, node| optional(alloc, node, disk),
        ),
    )
}

// What is found in the deployment.
fn found(
    alloc: Global,
    dep: &Name,
    records: &Records,
    slots: &Slots,
) -> Result<Seq<Problem>, CaseFault> {
    let (rows, orphans) = (records.0.as_slice(), records.1.as_slice());
    let (machines, disks) = (slots.0.as_slice(), slots.1.as_slice());
    match examine(alloc, dep, rows, orphans, machines, disks) {
        Ok(problems) => Ok(problems),
        Err(_) => Err(CaseFault::Memory),
    }
}

fn found_in(alloc: Global, dep: &Name, given: &Node) -> Result<Seq<Problem>, CaseFault> {
    let (records, slots) = both(records(alloc, given), slots(alloc, given))?;
    found(alloc, dep, &records, &slots)
}

/// What differs between the records of the deployment that the setting names and the cloud.
pub(crate) fn examined(alloc: Global, setting: &Node, given: &Node) -> Result<Reply, CaseFault> {
    let dep: Name = Given::of(alloc, setting)?;
    let problems = found_in(alloc, &dep, given);
    drop(dep);
    Ok(Reply::Problems(problems?))
}
