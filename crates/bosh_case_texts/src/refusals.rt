//! Refusals in words.
use crate::pieces::{push_addr, push_count, push_joint, push_owner};
use bosh_base::{Addr, Joint, Owner, Text};
use bosh_cases::{CaseFault, joined};
use bosh_links::LinkFault;
use bosh_pool::PoolFault;
use bosh_share::ShareFault;
use bosh_template::TemplateFault;
use std::alloc::{AllocError, Global};

fn with_addr(alloc: Global, word: &[u8], addr: Addr) -> Result<Vec<u8>, AllocError> {
    let mut words = Vec::new(alloc);
    push_addr(&mut words, word, addr)?;
    Ok(words)
}

fn taken(alloc: Global, addr: Addr, owner: &Owner) -> Result<Vec<u8>, AllocError> {
    let mut words = with_addr(alloc, b"Taken ", addr)?;
    push_owner(&mut words, b" ", owner)?;
    Ok(words)
}

/// Why addresses are not assigned.
pub fn pool_words(alloc: Global, fault: &PoolFault) -> Result<Vec<u8>, CaseFault> {
    let words = match fault {
        PoolFault::StaticCount { group } => joined(alloc, &[b"StaticCount ", group.as_bytes()]),
        PoolFault::NotStatic { addr } => with_addr(alloc, b"NotStatic ", *addr),
        PoolFault::StaticNotInAz { addr } => with_addr(alloc, b"StaticNotInAz ", *addr),
        PoolFault::Taken { addr, owner } => taken(alloc, *addr, owner),
        PoolFault::Empty { net } => joined(alloc, &[b"Empty ", net.as_bytes()]),
        PoolFault::Memory => Err(AllocError),
    };
    Ok(words?)
}

fn with_joint(alloc: Global, word: &[u8], joint: &Joint) -> Result<Vec<u8>, AllocError> {
    let mut words = Vec::new(alloc);
    push_joint(&mut words, word, joint)?;
    Ok(words)
}

fn ambiguous(alloc: Global, first: &Joint, second: &Joint) -> Result<Vec<u8>, AllocError> {
    let mut words = with_joint(alloc, b"Ambiguous ", first)?;
    push_joint(&mut words, b" ", second)?;
    Ok(words)
}

fn named(alloc: Global, word: &[u8], name: &Text) -> Result<Vec<u8>, AllocError> {
    joined(alloc, &[word, name.as_slice()])
}

/// Why links are not resolved.
pub fn link_words(alloc: Global, fault: &LinkFault) -> Result<Vec<u8>, CaseFault> {
    let words = match fault {
        LinkFault::NoProvider { consumer } => with_joint(alloc, b"NoProvider ", consumer),
        LinkFault::Ambiguous { first, second } => ambiguous(alloc, first, second),
        LinkFault::UnknownFrom { name } => named(alloc, b"UnknownFrom ", name),
        LinkFault::TypeDiffers { name } => named(alloc, b"TypeDiffers ", name),
        LinkFault::Memory => Err(AllocError),
    };
    Ok(words?)
}

/// Why links to other deployments are not resolved.
pub fn share_words(alloc: Global, fault: &ShareFault) -> Result<Vec<u8>, CaseFault> {
    let words = match fault {
        ShareFault::NoDeployment { name } => joined(alloc, &[b"NoDeployment ", name.as_bytes()]),
        ShareFault::NotShared { name } => named(alloc, b"NotShared ", name),
        ShareFault::NoProvider { consumer } => with_joint(alloc, b"NoProvider ", consumer),
        ShareFault::Ambiguous { first, second } => ambiguous(alloc, first, second),
        ShareFault::TypeDiffers { name } => named(alloc, b"TypeDiffers ", name),
        ShareFault::Memory => Err(AllocError),
    };
    Ok(words?)
}

fn numbered(alloc: Global, word: &[u8], number: u64) -> Result<Vec<u8>, AllocError> {
    let mut words = Vec::new(alloc);
    push_count(&mut words, word, number)?;
    Ok(words)
}

fn no_instance(alloc: Global, name: &Text, index: u32) -> Result<Vec<u8>, AllocError> {
    let mut words = named(alloc, b"NoInstance ", name)?;
    push_count(&mut words, b" ", u64::from(index))?;
    Ok(words)
}

/// Why a template is not read or not rendered.
pub fn template_words(alloc: Global, fault: &TemplateFault) -> Result<Vec<u8>, CaseFault> {
    let words = match fault {
        TemplateFault::Syntax { place } => numbered(alloc, b"Syntax ", *place),
        TemplateFault::Undeclared { name } => named(alloc, b"Undeclared ", name),
        TemplateFault::Missing { name } => named(alloc, b"Missing ", name),
        TemplateFault::NotScalar { name } => named(alloc, b"NotScalar ", name),
        TemplateFault::NoLink { name } => named(alloc, b"NoLink ", name),
        TemplateFault::NoInstance { name, index } => no_instance(alloc, name, *index),
        TemplateFault::Limit => joined(alloc, &[b"Limit"]),
        TemplateFault::Memory => Err(AllocError),
    };
    Ok(words?)
}
