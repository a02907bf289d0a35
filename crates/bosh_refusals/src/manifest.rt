ghost use Rattle.bosh_refusals.specs.Told.{manifest_told};

use crate::Refuses;
use crate::refusal::refused_with;
use bosh_base::Refusal;
use bosh_manifest::ManifestFault;
use bosh_report::ReportFault;
use std::alloc::Global;

impl Refuses for ManifestFault {
    ghost told = { manifest_told };

    fn refusal(&self, alloc: Global) -> Result<Refusal, ReportFault> {
        match self {
            ManifestFault::Missing { key } => refused_with(alloc, b"manifest", b"Missing", key),
            ManifestFault::WrongKind { key } => refused_with(alloc, b"manifest", b"WrongKind", key),
            ManifestFault::Repeated { name } => refused_with(alloc, b"manifest", b"Repeated", name),
            ManifestFault::Unsupported { key } => refused_with(
                alloc,
                b"manifest",
                b"Unsupported",
                key,
            ),
            ManifestFault::BadUpdate { key } => refused_with(alloc, b"manifest", b"BadUpdate", key),
            ManifestFault::Limit { key } => refused_with(alloc, b"manifest", b"Limit", key),
            ManifestFault::NameDiffers { name } => {
                refused_with(alloc, b"manifest", b"NameDiffers", name)
            }
            ManifestFault::Memory => Err(ReportFault::Memory),
        }
    }
}
