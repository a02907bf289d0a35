//! The addresses by which instances are reached.
ghost use Rattle.std.specs.Prelude.{◌≡◌};
ghost use Rattle.bosh_offers.specs.Sited.{gateway_addr, gateway_place};

use bosh_base::Addr;
use bosh_manifest::Group;
use bosh_manifest_parts::NetUse;

// The place of the network whose gateway the instances have.
fn gateway_place(networks: &[NetUse]) -> usize
    ensures { result ≡ gateway_place networks.now }
{
    for (place, network) in networks.iter().enumerate() {
        if network.gateway {
            return place;
        }
    }
    networks.len()
}

/// Of the addresses of an instance, which stand in the order of its group's networks, the one on the network whose gateway
/// it has.
pub fn gateway_addr(group: &Group, own: &[Addr]) -> Addr
    ensures { result ≡ gateway_addr group.now own.now }
{
    match own.get(gateway_place(group.networks.as_slice())) {
        Some(addr) => *addr,
        None => Addr(0),
    }
}
