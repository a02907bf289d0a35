ghost use Rattle.std.specs.Prelude.{◌≡◌};

use crate::coded::Coded;
use crate::fault::EntryFault;
use crate::format::Format;
use crate::source::Source;
use crate::variant::{write_place, write_variant};
use bosh_base::Failure;
use std::alloc::Global;

impl Coded for Failure {
    ghost use Rattle.bosh_entry.specs.Failure.{failure, is_failure, failure_at};

    ghost spelling = { λ _. failure };

    ghost fits = { is_failure };

    ghost reading = { failure_at };

    #[tactic(auto, unfolding(crate::specs::Failure::failure, crate::specs::Failure::is_failure))]
    fn write(&self, out: &mut Vec<u8>) -> Result<(), EntryFault> {
        match self {
            Failure::Interrupted => write_place(0, out),
            Failure::Call(number) => write_variant(1, number, out),
            Failure::Gone(number) => write_variant(2, number, out),
        }
    }

    #[tactic(auto, unfolding(crate::specs::Failure::failure_at, crate::specs::Later::present_at))]
    fn read(alloc: Global, format: Format, from: &mut Source) -> Result<Self, EntryFault> {
        match from.byte()? {
            0 => Ok(Failure::Interrupted),
            1 => Ok(Failure::Call(u64::read(alloc, format, from)?)),
            2 => match format {
                Format::Older => Err(EntryFault::NotAnEntry),
                Format::Present => Ok(Failure::Gone(u64::read(alloc, format, from)?))
            },
            _ => Err(EntryFault::NotAnEntry),
        }
    }
}
