use crate::{CopyFault, Copyable};
use std::alloc::Global;

/// How an instance is to stand.
#[derive(Clone, Copy, Debug, PartialEq, Eq)]
pub enum State {
    Running,
    /// The machine stands and its jobs do not run.
    Stopped,
    /// No machine; the persistent disk is kept.
    Detached,
}

impl Copyable for State {
    fn copy(&self, _alloc: Global) -> Result<Self, CopyFault> {
        Ok(*self)
    }
}
