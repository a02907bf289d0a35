use crate::bytes::bytes_of;
use crate::plain::word_of;
use crate::{CaseFault, Given};
use bosh_base::{Addr, Name, Text};
use bosh_ip::parse_addr;
use bosh_yaml::Node;
use std::alloc::Global;

/// Bytes.
impl Given for Text {
    fn of(alloc: Global, node: &Node) -> Result<Self, CaseFault> {
        Ok(Text::from(bytes_of(alloc, node)?))
    }
}

/// Bytes that are a name.
impl Given for Name {
    fn of(alloc: Global, node: &Node) -> Result<Self, CaseFault> {
        let bytes = bytes_of(alloc, node)?;
        Ok(Name::of(alloc, bytes.as_slice())?)
    }
}

/// As `10.0.0.1`.
impl Given for Addr {
    fn of(_alloc: Global, node: &Node) -> Result<Self, CaseFault> {
        match parse_addr(word_of(node)?.as_bytes()) {
            Ok(number) => Ok(Addr(number)),
            Err(_) => Err(CaseFault::Form),
        }
    }
}
