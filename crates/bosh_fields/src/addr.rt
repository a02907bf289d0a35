//! Addresses and ranges of addresses.
ghost use Rattle.std.specs.Prelude.{◌≡◌};
ghost use Rattle.bosh_yaml.specs.View.{tree_of};
ghost use Rattle.bosh_fields.specs.Address.{addr_in, band_in, or_malformed};
ghost use Rattle.bosh_fields.specs.Answer.{IsAnswer};

use crate::fault::{malformed, wrong_kind};
use crate::{FieldFault, FromField};
use bosh_base::{Addr, Band};
use bosh_ip::{parse_addr, parse_range};
use bosh_yaml::Node;
use std::alloc::Global;

/// What a text spells, or the refusal where it spells nothing of the kind that its key takes.
pub fn spelled<T: Drop>(alloc: Global, key: &[u8], value: Option<T>) -> Result<T, FieldFault>
    ensures { IsAnswer result (or_malformed key.now value) }
{
    match value {
        Some(value) => Ok(value),
        None => malformed(alloc, key),
    }
}

fn addr_in(text: &[u8]) -> Option<Addr>
    ensures { result ≡ addr_in text.now }
{
    match parse_addr(text) {
        Ok(addr) => Some(Addr(addr)),
        Err(_) => None,
    }
}

fn band_in(text: &[u8]) -> Option<Band>
    ensures { result ≡ band_in text.now }
{
    match parse_range(text) {
        Ok(span) => Some(Band {
            first: Addr(span.first),
            last: Addr(span.last),
        }),
        Err(_) => None,
    }
}

/// An address, as `10.0.0.1`.
impl FromField for Addr {
    ghost use Rattle.bosh_fields.specs.Address.{an_addr};

    ghost kind = { an_addr };

    fn from_field(alloc: Global, key: &[u8], node: &Node) -> Result<Self, FieldFault> {
        match node {
            Node::Text(text) => spelled(alloc, key, addr_in(text.as_bytes())),
            _ => wrong_kind(alloc, key),
        }
    }
}

/// One address, or a range of them, as `10.0.0.2 - 10.0.0.9`.
impl FromField for Band {
    ghost use Rattle.bosh_fields.specs.Address.{a_band};

    ghost kind = { a_band };

    fn from_field(alloc: Global, key: &[u8], node: &Node) -> Result<Self, FieldFault> {
        match node {
            Node::Text(text) => spelled(alloc, key, band_in(text.as_bytes())),
            _ => wrong_kind(alloc, key),
        }
    }
}
