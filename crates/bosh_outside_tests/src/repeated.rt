//! Texts in which one part stands many times.
use std::alloc::Global;
use std::process::Abort;

/// A text, and then another so many times.
pub(crate) fn followed(
    rt: &impl Abort,
    alloc: Global,
    front: &[u8],
    more: &[u8],
    times: usize,
) -> Vec<u8> {
    let mut bytes = front.to_vec(alloc).expect(rt, "memory");
    for _ in 0..times {
        bytes.extend_from_slice(more).expect(rt, "memory");
    }
    bytes
}
