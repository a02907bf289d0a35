//! Networks of addresses in CIDR notation.
ghost use Rattle.std.specs.Prelude.{◌≡◌, ◌+◌, ◌-◌, ◌^◌, ◌<◌, ◌≤◌};
ghost use Rattle.bosh_ip.specs.Network.{IsNetwork};
ghost use Rattle.bosh_cloudcfg.specs.Block.{block_in};

use bosh_base::{Addr, Band};
use bosh_fields::{FieldFault, FromField, spelled, wrong_kind};
use bosh_ip::{Cidr, parse_cidr};
use bosh_yaml::Node;
use std::alloc::Global;

/// The addresses of a network.
#[derive(Clone, Copy)]
pub(crate) struct Block {
    pub(crate) addresses: Band,
}

// How many addresses a network has beside its first.
fn others(bits: u8) -> u32
    requires { bits ≤ 32 }
    ensures { result + 1 ≡ 2 ^ (32 - bits) }
{
    ((1u64 << (32 - bits)) - 1) as u32
}

// The last address of a network.
fn last_of(net: Cidr) -> Addr
    requires first { net.first < 2 ^ 32 }
    requires bits { net.bits ≤ 32 }
    requires is_network { IsNetwork net }
    ensures { result.0 ≡ net.first + 2 ^ (32 - net.bits) - 1 }
{
    Addr(net.first + others(net.bits))
}

fn block_in(text: &[u8]) -> Option<Block>
    ensures { result ≡ block_in text.now }
{
    match parse_cidr(text) {
        Ok(net) => Some(Block {
            addresses: Band {
                first: Addr(net.first),
                last: last_of(net),
            },
        }),
        Err(_) => None,
    }
}

/// A network, as `10.0.0.0/24`.
impl FromField for Block {
    ghost use Rattle.bosh_cloudcfg.specs.Block.{a_block};

    ghost kind = { a_block };

    fn from_field(alloc: Global, key: &[u8], node: &Node) -> Result<Self, FieldFault> {
        match node {
            Node::Text(text) => spelled(alloc, key, block_in(text.as_bytes())),
            _ => wrong_kind(alloc, key),
        }
    }
}
