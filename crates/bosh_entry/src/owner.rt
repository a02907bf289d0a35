ghost use Rattle.std.specs.Prelude.{◌≡◌};

use crate::coded::Coded;
use crate::fault::EntryFault;
use crate::format::Format;
use crate::source::Source;
use crate::variant::write_variant;
use bosh_base::{Inst, Owner};
use std::alloc::Global;

impl Coded for Owner {
    ghost use Rattle.bosh_entry.specs.Owner.{owner, is_owner, owner_at};

    ghost spelling = { λ _. owner };

    ghost fits = { λ _. is_owner };

    ghost reading = { λ _. owner_at };

    #[tactic(auto, unfolding(crate::specs::Owner::owner, crate::specs::Owner::is_owner))]
    fn write(&self, out: &mut Vec<u8>) -> Result<(), EntryFault> {
        match self {
            Owner::Instance(inst) => write_variant(0, inst, out),
            Owner::Compile(task, slot) => {
                out.push(1)?;
                task.write(out)?;
                slot.write(out)
            }
            Owner::Disk(number) => write_variant(2, number, out),
        }
    }

    #[tactic(auto, unfolding(crate::specs::Owner::owner_at))]
    fn read(alloc: Global, format: Format, from: &mut Source) -> Result<Self, EntryFault> {
        match from.byte()? {
            0 => Inst::read(alloc, format, from).map(Owner::Instance),
            1 => Ok(Owner::Compile(
                u64::read(alloc, format, from)?,
                u32::read(alloc, format, from)?,
            )),
            2 => u64::read(alloc, format, from).map(Owner::Disk),
            _ => Err(EntryFault::NotAnEntry),
        }
    }
}
