//! Groups with the addresses of their instances.
ghost use Rattle.std.specs.Prelude.{◌≡◌, IfOk, drop, length, map, take};
ghost use Rattle.bosh_offers.specs.Sited.{after_group, beyond, by_instance, gateway_addrs, site, sites};

use crate::gateway::gateway_addr;
use bosh_base::{Addr, Seq};
use bosh_manifest_names::UsedGroup;
use std::alloc::{AllocError, Global};
use std::marker::Model;

/// A group, with the addresses of each of its instances in the order of the networks.
#[derive(Drop)]
pub struct Sited<'a, 'n> {
    used: &'n UsedGroup<'a>,
    instances: Vec<&'n [Addr]>,
}

impl<'a, 'n> Model for Sited<'a, 'n> {
    ghost use Rattle.std.specs.Prelude.{map};
    ghost use Rattle.std.specs.Coded.{codes};
    ghost use Rattle.bosh_yaml.specs.Code.{tree_code};
    ghost use Rattle.bosh_offers.specs.Sited.{Sited};

    ghost Value = { Sited };

    ghost coded = { Prim.hlevel (codes, tree_code) };

    ghost view = { λ group. record {
      used = group.used.now;
      instances = map (λ own. own.now) group.instances.items;
    } };
}

impl<'a, 'n> Sited<'a, 'n> {
    pub fn used(&self) -> &'n UsedGroup<'a>
        ensures { result.now ≡ self.now.used }
    {
        self.used
    }

    /// The addresses of each instance, by index.
    pub fn instances(&self) -> &[&'n [Addr]]
        ensures { map (λ own. own.now) result.now ≡ self.now.instances }
    {
        self.instances.as_slice()
    }

    /// Those on the network whose gateway the instances have, by index.
    pub fn gateway_addrs(&self, alloc: Global) -> Result<Seq<Addr>, AllocError>
        ensures { IfOk result (λ addrs. addrs ≡ gateway_addrs self.now) }
    {
        let group = self.used().group();
        let mut addrs = Vec::new(alloc);
        for own in self.instances() {
            addrs.push(gateway_addr(group, own))?;
        }
        Ok(Seq::from(addrs))
    }
}

fn front(addrs: &[Addr], count: usize) -> &[Addr]
    ensures { result.now ≡ take count addrs.now }
{
    &addrs[..count.min(addrs.len())]
}

fn rest(addrs: &[Addr], count: usize) -> &[Addr]
    ensures { result.now ≡ drop count addrs.now }
{
    &addrs[count.min(addrs.len())..]
}

// The addresses of so many instances, each of which has so many.
fn by_instance<'a>(
    alloc: Global,
    count: u32,
    width: usize,
    addrs: &'a [Addr],
) -> Result<Vec<&'a [Addr]>, AllocError>
    ensures { IfOk result (λ all. map (λ own. own.now) all.items ≡ by_instance count width addrs.now) }
{
    let mut all = Vec::new(alloc);
    let mut others = addrs;
    for _ in 0..count {
        all.push(front(others, width))?;
        others = rest(others, width);
    }
    Ok(all)
}

// What follows them.
fn beyond(count: u32, width: usize, addrs: &[Addr]) -> &[Addr]
    ensures { result.now ≡ beyond count width addrs.now }
{
    let mut others = addrs;
    for _ in 0..count {
        others = rest(others, width);
    }
    others
}

fn after_group<'n>(used: &UsedGroup, addrs: &'n [Addr]) -> &'n [Addr]
    ensures { result.now ≡ after_group used.now addrs.now }
{
    let group = used.group();
    beyond(group.instances, group.networks.len(), addrs)
}

fn site<'a, 'n>(
    alloc: Global,
    used: &'n UsedGroup<'a>,
    addrs: &'n [Addr],
) -> Result<Sited<'a, 'n>, AllocError>
    ensures { IfOk result (λ group. group ≡ site used.now addrs.now) }
{
    let group = used.group();
    let instances = by_instance(alloc, group.instances, group.networks.len(), addrs)?;
    Ok(Sited { used, instances })
}

/// Groups with the addresses of their instances. The addresses stand by group, by index and by network, in the order of the
/// groups.
pub fn sites<'a, 'n>(
    alloc: Global,
    groups: &'n [UsedGroup<'a>],
    addrs: &'n [Addr],
) -> Result<Vec<Sited<'a, 'n>>, AllocError>
    ensures { IfOk result (λ all. all.items ≡ sites groups.now addrs.now) }
{
    let mut all = Vec::new(alloc);
    let mut others = addrs;
    for used in groups {
        all.push(site(alloc, used, others)?)?;
        others = after_group(used, others);
    }
    Ok(all)
}
