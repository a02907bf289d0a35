ghost use Rattle.std.specs.Prelude.{◌≡◌, ◌++◌, ◌≤◌, IfOk, OnOk};
ghost use Rattle.bosh_generator.specs.Manifest.{cloud_config_text, group_text, groups, header, manifest_text, members, tail};

use crate::piece::{add, add_number};
use std::alloc::{AllocError, Global};

/// As many instances stand in a group, but for the last one.
const MEMBERS: u64 = 64;

/// The cloud config: one zone, one network of 65,536 addresses, one vm type, and four compile workers.
pub fn cloud_config() -> &'static [u8]
    ensures { result.now ≡ cloud_config_text }
{
    b"azs:\n- name: z1\nnetworks:\n- name: net\n  subnets:\n  - {range: 10.64.0.0/16, gateway: 10.64.0.1, az: z1}\nvm_types:\n- name: small\ncompilation: {workers: 4, az: z1, vm_type: small, network: net}\n"
}

/// How many groups so many instances stand in.
pub fn groups(instances: u64) -> u64
    requires { instances ≤ 512 }
    ensures { result ≡ groups instances }
{
    instances.div_ceil(MEMBERS)
}

// How many instances the group at a place has, from 0 on.
fn members(instances: u64, group: u64) -> u64
    ensures { result ≡ members instances group }
{
    instances
        .saturating_sub(group.saturating_mul(MEMBERS))
        .min(MEMBERS)
}

fn add_header(out: &mut Vec<u8>) -> Result<(), AllocError>
    ensures { OnOk result (out.new.items ≡ out.old.items ++ header) }
{
    add(
        out,
        b"name: gen\nreleases:\n- {name: gen, version: \"1\"}\nstemcells:\n- {alias: gen, os: gen, version: \"1\"}\nupdate: {canaries: 1, max_in_flight: 10%, canary_watch_time: 1000, update_watch_time: 1000}\ninstance_groups:\n",
    )
}

fn add_group(out: &mut Vec<u8>, group: u64, members: u64) -> Result<(), AllocError>
    ensures { OnOk result (out.new.items ≡ out.old.items ++ group_text group members) }
{
    add_number(out, b"- name: g", group, b"\n")?;
    add_number(out, b"  instances: ", members, b"\n")?;
    add(
        out,
        b"  azs: [z1]\n  vm_type: small\n  stemcell: gen\n  networks: [{name: net}]\n  persistent_disk: 10\n  jobs: [{name: w, release: gen}]\n",
    )
}

/// The manifest of so many instances.
pub fn manifest(alloc: Global, instances: u64) -> Result<Vec<u8>, AllocError>
    requires { instances ≤ 512 }
    ensures { IfOk result (λ text. text.items ≡ manifest_text instances) }
{
    let mut text = Vec::new(alloc);
    add_header(&mut text)?;
    for group in 0..groups(instances) {
        add_group(&mut text, group, members(instances, group))?;
    }
    Ok(text)
}
