use crate::{CopyFault, Copyable};
use std::alloc::Global;

/// Why a task ended without being done.
#[derive(Drop)]
pub enum Failure {
    Interrupted,
    /// The least call that failed.
    Call(u64),
    /// The least call that failed, and named what was not there.
    Gone(u64),
}

impl Copyable for Failure {
    fn copy(&self, alloc: Global) -> Result<Self, CopyFault> {
        match self {
            Failure::Interrupted => Ok(Failure::Interrupted),
            Failure::Call(n) => Ok(Failure::Call(*n)),
            Failure::Gone(n) => Ok(Failure::Gone(*n)),
        }
    }
}
