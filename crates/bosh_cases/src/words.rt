//! Texts that are put together.
use std::alloc::{AllocError, Global};

/// Adds the parts one after the other.
pub fn push_parts(text: &mut Vec<u8>, parts: &[&[u8]]) -> Result<(), AllocError> {
    for part in parts {
        text.extend_from_slice(part)?;
    }
    Ok(())
}

/// The parts one after the other.
pub fn joined(alloc: Global, parts: &[&[u8]]) -> Result<Vec<u8>, AllocError> {
    let mut text = Vec::new(alloc);
    push_parts(&mut text, parts)?;
    Ok(text)
}
