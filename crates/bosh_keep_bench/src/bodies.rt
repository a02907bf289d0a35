//! The bodies that are written and read.
use bosh_ports::{Bodies, KeepFault};
use std::alloc::{AllocError, Global};

/// The body of a place: its number in decimal, with as many zeros in front as make 100 bytes.
pub(crate) fn body_of(alloc: Global, place: u64) -> Result<Vec<u8>, AllocError> {
    Ok(format!(in alloc; "{place:0100}")?.into_bytes())
}

/// Whether a body is that of a place.
pub(crate) fn is_body_of(alloc: Global, body: &[u8], place: u64) -> Result<bool, AllocError> {
    let expected = body_of(alloc, place)?;
    Ok(expected.as_slice() == body)
}

/// The bodies of the first places.
pub(crate) fn bodies_of(alloc: Global, count: u64) -> Result<Bodies, KeepFault> {
    let mut bodies = Bodies::new(alloc);
    for place in 0..count {
        if bodies.push(body_of(alloc, place)?).is_err() {
            return Err(KeepFault::Memory);
        }
    }
    Ok(bodies)
}
