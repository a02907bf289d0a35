ghost use Rattle.std.specs.Prelude.{◌≡◌};
ghost use Rattle.bosh_answers.specs.Texts.{text_told};
ghost use Rattle.bosh_answers.specs.declared.text_fault.TextFault.TheVariants.{Memory, Unfilled, Unfit, Unread};

use bosh_base::Refusal;
use bosh_manifest::ManifestFault;
use bosh_refusals::Refuses;
use bosh_report::ReportFault;
use bosh_vars::VarsFault;
use bosh_yaml::{CopyFault, ReadFault};
use std::alloc::{AllocError, AllocFailed, Global};

/// Why the text of a file is no manifest of a deployment.
#[derive(Drop)]
pub enum TextFault {
    /// It is neither YAML nor JSON that is read.
    Unread(ReadFault),
    /// A placeholder of it has no value that can stand there.
    Unfilled(VarsFault),
    /// It is not a manifest of the deployment.
    Unfit(ManifestFault),
    Memory,
}

impl Refuses for TextFault {
    ghost told = { text_told };

    fn refusal(&self, alloc: Global) -> Result<Refusal, ReportFault> {
        match self {
            TextFault::Unread(fault) => fault.refusal(alloc),
            TextFault::Unfilled(fault) => fault.refusal(alloc),
            TextFault::Unfit(fault) => fault.refusal(alloc),
            TextFault::Memory => Err(ReportFault::Memory),
        }
    }
}

impl From<ReadFault> for TextFault {
    ghost from_gives = { λ given fault. fault ≡ Unread given };

    fn from(fault: ReadFault) -> Self {
        TextFault::Unread(fault)
    }
}

impl From<VarsFault> for TextFault {
    ghost from_gives = { λ given fault. fault ≡ Unfilled given };

    fn from(fault: VarsFault) -> Self {
        TextFault::Unfilled(fault)
    }
}

impl From<ManifestFault> for TextFault {
    ghost from_gives = { λ given fault. fault ≡ Unfit given };

    fn from(fault: ManifestFault) -> Self {
        TextFault::Unfit(fault)
    }
}

impl From<AllocError> for TextFault {
    ghost from_gives = { λ _ fault. fault ≡ Memory };

    fn from(_: AllocError) -> Self {
        TextFault::Memory
    }
}

impl<T: Drop> From<AllocFailed<T>> for TextFault {
    ghost from_gives = { λ _ fault. fault ≡ Memory };

    fn from(_: AllocFailed<T>) -> Self {
        TextFault::Memory
    }
}

impl From<CopyFault> for TextFault {
    ghost from_gives = { λ _ fault. fault ≡ Memory };

    fn from(_: CopyFault) -> Self {
        TextFault::Memory
    }
}
