//! A deploy of instances in eight groups.
use crate::timed;
use bosh_asks::{Ask, Deploy};
use bosh_base::{Digest, Name};
use bosh_manifest::Manifest;
use bosh_yaml::read;
use std::alloc::{AllocError, Global};
use std::rt::Clock;
use std::time::Duration;

/// How many groups the instances stand in.
const GROUPS: u32 = 8;

// How many instances there may be.
const MOST: u32 = 512;

/// The text of the cloud config.
pub const CONFIG: &str = "azs: [{name: z1}]
networks:
- name: net
  subnets: [{range: 10.64.0.0/16, gateway: 10.64.0.1, az: z1}]
vm_types: [{name: small}]
compilation: {workers: 4, az: z1, vm_type: small, network: net}
";

// What stands before the groups of the manifest.
const HEAD: &str = "name: gen
releases: []
stemcells: [{alias: default, os: jammy, version: latest}]
update: {canaries: 1, max_in_flight: 4, canary_watch_time: 1000-30000, update_watch_time: 1000-30000}
instance_groups:
";

fn push_group(
    alloc: Global,
    text: &mut String,
    group: u32,
    instances: u32,
) -> Result<(), AllocError> {
    let more = format!(in alloc;
        "- {{name: g{group}, instances: {instances}, azs: [z1], vm_type: small, stemcell: default, networks: [{{name: net}}], jobs: []}}\n"
    )?;
    text.push_str(more.as_str())
}

// The manifest of so many instances, as nearly as many in each group.
fn text_of(alloc: Global, instances: u32) -> Result<String, AllocError> {
    let mut text = String::from_str(alloc, HEAD)?;
    for group in 0..GROUPS {
        push_group(alloc, &mut text, group, instances / GROUPS)?;
    }
    Ok(text)
}

fn checked(alloc: Global, dep: &Name, text: &str) -> Option<Manifest> {
    let node = read(alloc, text.as_bytes()).ok()?;
    bosh_manifest::check(alloc, &node, dep).ok()
}

fn manifest_of(alloc: Global, instances: u32) -> Option<Manifest> {
    let dep = Name::of(alloc, b"gen").ok()?;
    let text = text_of(alloc, instances).ok()?;
    checked(alloc, &dep, text.as_str())
}

// The task that deploys so many instances.
fn ask_of(alloc: Global, instances: u32) -> Option<Ask> {
    let manifest = manifest_of(alloc, instances)?;
    Some(Ask::Deploy(Deploy {
        manifest,
        recreate: false,
        fix: false,
        source: Digest([0; 32]),
    }))
}

/// How long it takes to do a task that deploys so many instances, at most 512, of the stemcell `jammy`, where that
/// succeeds. What does it is given the task, and knows the cloud config and the stemcell or is told them first.
pub fn time_of_deploy<F: FnOnce(&Ask) -> bool + Drop>(
    clock: &impl Clock,
    alloc: Global,
    instances: u32,
    run: F,
) -> Option<Duration>
    requires { F.IsAlwaysCallable run }
{
    if instances > MOST {
        return None;
    }
    let ask = ask_of(alloc, instances)?;
    timed(clock, &ask, run)
}
