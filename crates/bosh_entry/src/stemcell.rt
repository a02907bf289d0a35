ghost use Rattle.std.specs.Prelude.{◌≡◌};

use crate::coded::Coded;
use crate::fault::EntryFault;
use crate::format::Format;
use crate::source::Source;
use bosh_base::{Name, Stemcell, Text};
use std::alloc::Global;

impl Coded for Stemcell {
    ghost use Rattle.bosh_entry.specs.Stemcell.{stemcell, is_stemcell, stemcell_at};

    ghost spelling = { λ _. stemcell };

    ghost fits = { λ _. is_stemcell };

    ghost reading = { λ _. stemcell_at };

    #[tactic(auto, unfolding(crate::specs::Stemcell::stemcell, crate::specs::Stemcell::is_stemcell))]
    fn write(&self, out: &mut Vec<u8>) -> Result<(), EntryFault> {
        self.os.write(out)?;
        self.version.write(out)
    }

    #[tactic(auto, unfolding(crate::specs::Stemcell::stemcell_at))]
    fn read(alloc: Global, format: Format, from: &mut Source) -> Result<Self, EntryFault> {
        Ok(Stemcell {
            os: Name::read(alloc, format, from)?,
            version: Text::read(alloc, format, from)?,
        })
    }
}
