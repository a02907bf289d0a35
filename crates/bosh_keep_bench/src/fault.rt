use bosh_keep_sql::LoadFault;
use bosh_ports::KeepFault;
use std::alloc::AllocError;

/// Why a work was not done.
#[derive(Clone, Copy, Debug)]
pub(crate) enum WorkFault {
    /// There is no keeper over the database.
    Refused(LoadFault),
    /// The keeper did not do what it was asked.
    Kept(KeepFault),
    /// The body at this place is not what was written there.
    Changed(u64),
    /// There is no clock.
    Clock,
    /// Nothing can be written to standard output.
    Output,
}

impl From<KeepFault> for WorkFault {
    fn from(fault: KeepFault) -> Self {
        WorkFault::Kept(fault)
    }
}

impl From<AllocError> for WorkFault {
    fn from(_: AllocError) -> Self {
        WorkFault::Kept(KeepFault::Memory)
    }
}
