ghost use Rattle.std.specs.Prelude.{◌≡◌};

use crate::coded::Coded;
use crate::fault::EntryFault;
use crate::format::Format;
use crate::source::Source;
use bosh_base::{Digest, Mark, Name, Placed, Spec, Text};
use std::alloc::Global;

impl Coded for Mark {
    ghost use Rattle.bosh_entry.specs.Spec.{mark, is_mark, mark_at};

    ghost spelling = { λ _. mark };

    ghost fits = { λ _. is_mark };

    ghost reading = { λ _. mark_at };

    #[tactic(auto, unfolding(crate::specs::Spec::mark, crate::specs::Spec::is_mark))]
    fn write(&self, out: &mut Vec<u8>) -> Result<(), EntryFault> {
        self.name.write(out)?;
        self.fingerprint.write(out)
    }

    #[tactic(auto, unfolding(crate::specs::Spec::mark_at))]
    fn read(alloc: Global, format: Format, from: &mut Source) -> Result<Self, EntryFault> {
        Ok(Mark {
            name: Name::read(alloc, format, from)?,
            fingerprint: Digest::read(alloc, format, from)?,
        })
    }
}

impl Coded for Placed {
    ghost use Rattle.bosh_entry.specs.Spec.{placed, is_placed, placed_at};

    ghost spelling = { λ _. placed };

    ghost fits = { λ _. is_placed };

    ghost reading = { λ _. placed_at };

    #[tactic(auto, unfolding(crate::specs::Spec::placed, crate::specs::Spec::is_placed))]
    fn write(&self, out: &mut Vec<u8>) -> Result<(), EntryFault> {
        self.path.write(out)?;
        self.text.write(out)
    }

    #[tactic(auto, unfolding(crate::specs::Spec::placed_at))]
    fn read(alloc: Global, format: Format, from: &mut Source) -> Result<Self, EntryFault> {
        Ok(Placed {
            path: Text::read(alloc, format, from)?,
            text: Text::read(alloc, format, from)?,
        })
    }
}

impl Coded for Spec {
    ghost use Rattle.bosh_entry.specs.Spec.{spec, is_spec, spec_at};

    ghost spelling = { λ _. spec };

    ghost fits = { λ _. is_spec };

    ghost reading = { λ _. spec_at };

    #[tactic(auto, unfolding(crate::specs::Spec::spec, crate::specs::Spec::is_spec))]
    fn write(&self, out: &mut Vec<u8>) -> Result<(), EntryFault> {
        self.jobs.write(out)?;
        self.packages.write(out)?;
        self.files.write(out)
    }

    #[tactic(auto, using(crate::proofs::StructLemmas::spec_parts))]
    fn read(alloc: Global, format: Format, from: &mut Source) -> Result<Self, EntryFault> {
        let fields = Coded::read(alloc, format, from)?;
        let ((jobs, packages), files) = fields;
        Ok(Spec {
            jobs,
            packages,
            files,
        })
    }
}
