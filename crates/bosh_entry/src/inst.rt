ghost use Rattle.std.specs.Prelude.{◌≡◌};

use crate::coded::Coded;
use crate::fault::EntryFault;
use crate::format::Format;
use crate::source::Source;
use bosh_base::Inst;
use std::alloc::Global;

impl Coded for Inst {
    ghost use Rattle.bosh_entry.specs.Inst.{inst, is_inst, inst_at};

    ghost spelling = { λ _. inst };

    ghost fits = { λ _. is_inst };

    ghost reading = { λ _. inst_at };

    #[tactic(auto, unfolding(crate::specs::Inst::inst, crate::specs::Inst::is_inst))]
    fn write(&self, out: &mut Vec<u8>) -> Result<(), EntryFault> {
        self.dep.write(out)?;
        self.group.write(out)?;
        self.index.write(out)
    }

    #[tactic(auto, using(crate::proofs::StructLemmas::inst_parts))]
    fn read(alloc: Global, format: Format, from: &mut Source) -> Result<Self, EntryFault> {
        let fields = Coded::read(alloc, format, from)?;
        let ((dep, group), index) = fields;
        Ok(Inst { dep, group, index })
    }
}
