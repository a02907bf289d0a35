//! Which addresses a plan of networks gives.
use bosh_base::{Addr, Band, Name, NetPlan, Seq, Subnet};
use bosh_yaml::Node;
use cases_given::{CaseFault, Outcome, both, each, field, two};
use std::alloc::Global;

fn band((first, last): (Addr, Addr)) -> Band {
    Band { first, last }
}

fn bands(alloc: Global, node: &Node, key: &str) -> Result<Seq<Band>, CaseFault> {
    let ends: Seq<(Addr, Addr)> = field(alloc, node, key)?;
    let mut bands = Vec::new(alloc);
    for pair in &ends {
        bands.push(band(*pair))?;
    }
    Ok(Seq::from(bands))
}

fn subnet(alloc: Global, node: &Node) -> Result<Subnet, CaseFault> {
    let (range, gateway) = two(alloc, node, ["range", "gateway"])?;
    let places = two(alloc, node, ["net", "azs"]);
    let kept = both(bands(alloc, node, "static"), bands(alloc, node, "reserved"));
    let ((net, azs), (fixed, reserved)) = both(places, kept)?;
    Ok(Subnet {
        net,
        range: band(range),
        gateway,
        reserved,
        fixed,
        azs,
    })
}

fn plan(alloc: Global, node: &Node) -> Result<NetPlan, CaseFault> {
    match node {
        Node::List(items) => Ok(NetPlan {
            subnets: each(alloc, items.as_slice(), subnet)?,
        }),
        _ => Err(CaseFault::Form),
    }
}

fn use_word(plan: &NetPlan, (net, zone): &(Name, Name), addr: Addr) -> &'static str {
    match (
        plan.is_dynamic(net, zone, addr),
        plan.is_static(net, zone, addr),
    ) {
        (true, false) => "dynamic",
        (false, true) => "static",
        (false, false) => "none",
        (true, true) => "both",
    }
}

/// To whom a plan gives an address of a network in a zone.
pub(crate) fn use_of(alloc: Global, plan: &NetPlan, given: &Node) -> Result<Outcome, CaseFault> {
    let addr: Addr = field(alloc, given, "addr")?;
    let place: (Name, Name) = two(alloc, given, ["net", "zone"])?;
    Outcome::shown(alloc, &use_word(plan, &place, addr))
}

/// The same for the plan of the setting.
pub(crate) fn address(alloc: Global, setting: &Node, given: &Node) -> Result<Outcome, CaseFault> {
    let plan = plan(alloc, setting)?;
    use_of(alloc, &plan, given)
}
