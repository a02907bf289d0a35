ghost use Rattle.std.specs.Prelude.{◌≡◌};
ghost use Rattle.bosh_transcript.specs.Status.{code_of, of_input};
ghost use Rattle.bosh_transcript.specs.declared.status.Status.TheVariants.{Memory};

use bosh_input::InputFault;
use bosh_report::ReportFault;
use std::alloc::{AllocError, AllocFailed};

/// How a session ended.
#[derive(Clone, Copy, Debug, PartialEq, Eq)]
pub enum Status {
    /// The input was read to its end, and every reply was good.
    Good,
    /// The input was read to its end, and a reply was an error.
    Failed,
    /// The words of the command line are none that are known.
    Usage,
    /// The input failed.
    Source,
    /// The output failed.
    Sink,
    Memory,
    /// The input has too many commands or bytes.
    Limit,
    /// What was kept could not be loaded.
    Unloaded,
}

impl Status {
    /// The number that the process ends with.
    pub fn code(self) -> u8
        ensures { result ≡ code_of self }
    {
        match self {
            Status::Good => 0,
            Status::Failed => 1,
            Status::Usage => 2,
            Status::Source => 3,
            Status::Sink => 4,
            Status::Memory => 5,
            Status::Limit => 6,
            Status::Unloaded => 7,
        }
    }
}

impl From<InputFault> for Status {
    ghost from_gives = { λ fault status. status ≡ of_input fault };

    fn from(fault: InputFault) -> Self {
        match fault {
            InputFault::Source => Status::Source,
            InputFault::Limit => Status::Limit,
            InputFault::Memory => Status::Memory,
        }
    }
}

impl From<AllocError> for Status {
    ghost from_gives = { λ _ status. status ≡ Memory };

    fn from(_: AllocError) -> Self {
        Status::Memory
    }
}

impl<T: Drop> From<AllocFailed<T>> for Status {
    ghost from_gives = { λ _ status. status ≡ Memory };

    fn from(_: AllocFailed<T>) -> Self {
        Status::Memory
    }
}

impl From<ReportFault> for Status {
    ghost from_gives = { λ _ status. status ≡ Memory };

    fn from(_: ReportFault) -> Self {
        Status::Memory
    }
}
