ghost use Rattle.std.specs.Prelude.{◌≡◌};

use crate::coded::Coded;
use crate::fault::EntryFault;
use crate::format::Format;
use crate::source::Source;
use bosh_base::{Joint, Tie};
use std::alloc::Global;

impl Coded for Joint {
    ghost use Rattle.bosh_entry.specs.Link.{joint, is_joint, joint_at};

    ghost spelling = { λ _. joint };

    ghost fits = { λ _. is_joint };

    ghost reading = { λ _. joint_at };

    #[tactic(auto, unfolding(crate::specs::Link::joint, crate::specs::Link::is_joint))]
    fn write(&self, out: &mut Vec<u8>) -> Result<(), EntryFault> {
        self.dep.write(out)?;
        self.group.write(out)?;
        self.job.write(out)?;
        self.link.write(out)
    }

    #[tactic(auto, using(crate::proofs::StructLemmas::joint_parts))]
    fn read(alloc: Global, format: Format, from: &mut Source) -> Result<Self, EntryFault> {
        let fields = Coded::read(alloc, format, from)?;
        let ((dep, group), (job, link)) = fields;
        Ok(Joint {
            dep,
            group,
            job,
            link,
        })
    }
}

impl Coded for Tie {
    ghost use Rattle.bosh_entry.specs.Link.{tie, is_tie, tie_at};

    ghost spelling = { λ _. tie };

    ghost fits = { λ _. is_tie };

    ghost reading = { λ _. tie_at };

    #[tactic(auto, unfolding(crate::specs::Link::tie, crate::specs::Link::is_tie))]
    fn write(&self, out: &mut Vec<u8>) -> Result<(), EntryFault> {
        self.consumer.write(out)?;
        self.provider.write(out)?;
        self.kind.write(out)
    }

    #[tactic(auto, using(crate::proofs::StructLemmas::tie_parts))]
    fn read(alloc: Global, format: Format, from: &mut Source) -> Result<Self, EntryFault> {
        let fields = Coded::read(alloc, format, from)?;
        let ((consumer, provider), kind) = fields;
        Ok(Tie {
            consumer,
            provider,
            kind,
        })
    }
}
