ghost use Rattle.std.specs.Prelude.{◌≡◌};
ghost use Rattle.bosh_answers.specs.declared.fault.AnswerFault.TheVariants.{Memory};

use bosh_base::CopyFault;
use bosh_cck::CckFault;
use bosh_records::RecordsFault;
use bosh_report::ReportFault;
use std::alloc::{AllocError, AllocFailed};

/// Why a command has no answer.
#[derive(Clone, Copy, Debug, PartialEq, Eq)]
pub enum AnswerFault {
    Memory,
}

impl From<AllocError> for AnswerFault {
    ghost from_gives = { λ _ fault. fault ≡ Memory };

    fn from(_: AllocError) -> Self {
        AnswerFault::Memory
    }
}

impl<T: Drop> From<AllocFailed<T>> for AnswerFault {
    ghost from_gives = { λ _ fault. fault ≡ Memory };

    fn from(_: AllocFailed<T>) -> Self {
        AnswerFault::Memory
    }
}

impl From<CopyFault> for AnswerFault {
    ghost from_gives = { λ _ fault. fault ≡ Memory };

    fn from(_: CopyFault) -> Self {
        AnswerFault::Memory
    }
}

impl From<ReportFault> for AnswerFault {
    ghost from_gives = { λ _ fault. fault ≡ Memory };

    fn from(_: ReportFault) -> Self {
        AnswerFault::Memory
    }
}

impl From<RecordsFault> for AnswerFault {
    ghost from_gives = { λ _ fault. fault ≡ Memory };

    fn from(_: RecordsFault) -> Self {
        AnswerFault::Memory
    }
}

impl From<CckFault> for AnswerFault {
    ghost from_gives = { λ _ fault. fault ≡ Memory };

    fn from(_: CckFault) -> Self {
        AnswerFault::Memory
    }
}
