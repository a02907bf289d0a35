ghost use Rattle.bosh_refusals.specs.Told.{vars_told};

use crate::Refuses;
use crate::refusal::refused_with;
use bosh_base::Refusal;
use bosh_report::{ReportFault, Word};
use bosh_vars::VarsFault;
use std::alloc::Global;

impl Refuses for VarsFault {
    ghost told = { vars_told };

    fn refusal(&self, alloc: Global) -> Result<Refusal, ReportFault> {
        match self {
            VarsFault::Unset { name } => {
                refused_with(alloc, b"vars", b"Unset", &Word(name.as_bytes()))
            }
            VarsFault::NotText { name } => {
                refused_with(alloc, b"vars", b"NotText", &Word(name.as_bytes()))
            }
            VarsFault::Memory => Err(ReportFault::Memory),
        }
    }
}
