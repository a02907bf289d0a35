ghost use Rattle.bosh_refusals.specs.Told.{session_told};

use crate::Refuses;
use crate::refusal::refused_with;
use bosh_base::{Refusal, Text};
use bosh_report::ReportFault;
use std::alloc::Global;

/// Why a session has nothing to show.
#[derive(Drop)]
pub enum SessionFault {
    /// No live machine of the instance has a file of this path.
    NoFile { path: Text },
    /// No task of this number was opened.
    NoTask { task: u64 },
}

impl Refuses for SessionFault {
    ghost told = { session_told };

    fn refusal(&self, alloc: Global) -> Result<Refusal, ReportFault> {
        match self {
            SessionFault::NoFile { path } => refused_with(alloc, b"session", b"NoFile", path),
            SessionFault::NoTask { task } => refused_with(alloc, b"session", b"NoTask", task),
        }
    }
}
