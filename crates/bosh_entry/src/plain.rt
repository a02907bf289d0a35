ghost use Rattle.std.specs.Prelude.{◌≡◌};

use crate::coded::Coded;
use crate::fault::EntryFault;
use crate::format::Format;
use crate::source::Source;
use crate::text::write_text;
use bosh_base::{Digest, Name, OfFault, Text};
use std::alloc::Global;

impl Coded for Name {
    ghost use Rattle.bosh_base.specs.Name.{is_name};
    ghost use Rattle.bosh_entry.specs.List.{text};
    ghost use Rattle.bosh_entry.specs.Plain.{name_at};

    ghost spelling = { λ _. text };

    ghost fits = { λ _. is_name };

    ghost reading = { λ _. name_at };

    fn write(&self, out: &mut Vec<u8>) -> Result<(), EntryFault> {
        write_text(self.as_bytes(), out)
    }

    #[tactic(auto, unfolding(crate::specs::Plain::name_at))]
    fn read(alloc: Global, format: Format, from: &mut Source) -> Result<Self, EntryFault> {
        let text = Text::read(alloc, format, from)?;
        match Name::of(alloc, text.as_slice()) {
            Ok(name) => Ok(name),
            Err(OfFault::NotOne) => Err(EntryFault::NotAnEntry),
            Err(OfFault::Memory) => Err(EntryFault::Memory),
        }
    }
}

impl Coded for Digest {
    ghost use Rattle.bosh_entry.specs.Plain.{digest, is_digest, digest_at};

    ghost spelling = { λ _. digest };

    ghost fits = { λ _. is_digest };

    ghost reading = { λ _. digest_at };

    #[tactic(auto, unfolding(crate::specs::Plain::digest))]
    fn write(&self, out: &mut Vec<u8>) -> Result<(), EntryFault> {
        out.extend_from_slice(&self.0)?;
        Ok(())
    }

    fn read(_alloc: Global, _format: Format, from: &mut Source) -> Result<Self, EntryFault> {
        from.digest()
    }
}
