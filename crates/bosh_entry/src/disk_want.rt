ghost use Rattle.std.specs.Prelude.{◌≡◌};

use crate::coded::Coded;
use crate::fault::EntryFault;
use crate::format::Format;
use crate::source::Source;
use bosh_base::{DiskWant, Text};
use std::alloc::Global;

impl Coded for DiskWant {
    ghost use Rattle.bosh_entry.specs.DiskWant.{disk_want, is_disk_want, disk_want_at};

    ghost spelling = { λ _. disk_want };

    ghost fits = { λ _. is_disk_want };

    ghost reading = { λ _. disk_want_at };

    #[tactic(auto, unfolding(crate::specs::DiskWant::disk_want, crate::specs::DiskWant::is_disk_want))]
    fn write(&self, out: &mut Vec<u8>) -> Result<(), EntryFault> {
        self.size.write(out)?;
        self.properties.write(out)
    }

    #[tactic(auto, unfolding(crate::specs::DiskWant::disk_want_at))]
    fn read(alloc: Global, format: Format, from: &mut Source) -> Result<Self, EntryFault> {
        Ok(DiskWant {
            size: u32::read(alloc, format, from)?,
            properties: Text::read(alloc, format, from)?,
        })
    }
}
