ghost use Rattle.std.specs.Prelude.{◌≡◌};

use crate::coded::Coded;
use crate::fault::EntryFault;
use crate::format::Format;
use crate::pair::write_four;
use crate::source::Source;
use bosh_base::Make;
use std::alloc::Global;

impl Coded for Make {
    ghost use Rattle.bosh_entry.specs.Make.{make, is_make, make_at};

    ghost spelling = { λ _. make };

    ghost fits = { λ _. is_make };

    ghost reading = { λ _. make_at };

    #[tactic(auto, unfolding(crate::specs::Make::make, crate::specs::Make::is_make))]
    fn write(&self, out: &mut Vec<u8>) -> Result<(), EntryFault> {
        write_four(&self.os, &self.version, &self.az, &self.vm, out)?;
        self.nets.write(out)
    }

    #[tactic(auto, using(crate::proofs::StructLemmas::make_parts))]
    fn read(alloc: Global, format: Format, from: &mut Source) -> Result<Self, EntryFault> {
        let fields = Coded::read(alloc, format, from)?;
        let (((os, version), (az, vm)), nets) = fields;
        Ok(Make {
            os,
            version,
            az,
            vm,
            nets,
        })
    }
}
