use crate::bytes::bytes_of;
use crate::{CaseFault, Given, two, word_of};
use bosh_base::{Addr, METHODS, Method, Name, Stemcell, Text};
use bosh_ip::parse_addr;
use bosh_yaml::Node;
use std::alloc::Global;

/// Bytes.
impl Given for Text {
    fn of(alloc: Global, node: &Node) -> Result<Self, CaseFault> {
        Ok(Text::from(bytes_of(alloc, node)?))
    }
}

/// Bytes that are a name.
impl Given for Name {
    fn of(alloc: Global, node: &Node) -> Result<Self, CaseFault> {
        let bytes = bytes_of(alloc, node)?;
        Ok(Name::of(alloc, bytes.as_slice())?)
    }
}

/// As `10.0.0.1`.
impl Given for Addr {
    fn of(_alloc: Global, node: &Node) -> Result<Self, CaseFault> {
        match parse_addr(word_of(node)?.as_bytes()) {
            Ok(number) => Ok(Addr(number)),
            Err(_) => Err(CaseFault::Form),
        }
    }
}

/// `os` and `version`.
impl Given for Stemcell {
    fn of(alloc: Global, node: &Node) -> Result<Self, CaseFault> {
        let (os, version) = two(alloc, node, ["os", "version"])?;
        Ok(Stemcell { os, version })
    }
}

/// By its name, as `create_vm`.
impl Given for Method {
    fn of(_alloc: Global, node: &Node) -> Result<Self, CaseFault> {
        let name = word_of(node)?;
        for method in METHODS {
            if method.name() == name {
                return Ok(method);
            }
        }
        Err(CaseFault::Form)
    }
}
