ghost use Rattle.std.specs.Prelude.{◌≡◌};
ghost use Rattle.bosh_entry.specs.Reading.{Gives};
ghost use Rattle.bosh_entry.specs.Number.{worker_at};

use crate::coded::Coded;
use crate::fault::EntryFault;
use crate::format::Format;
use crate::source::Source;
use std::alloc::Global;

impl Coded for u64 {
    ghost use Rattle.bosh_entry.specs.Number.{number, is_number, number_at};

    ghost spelling = { λ _. number };

    ghost fits = { λ _. is_number };

    ghost reading = { λ _. number_at };

    #[tactic(auto, unfolding(crate::specs::Number::number))]
    fn write(&self, out: &mut Vec<u8>) -> Result<(), EntryFault> {
        out.extend_from_slice(&self.to_be_bytes())?;
        Ok(())
    }

    fn read(_alloc: Global, _format: Format, from: &mut Source) -> Result<Self, EntryFault> {
        from.number()
    }
}

impl Coded for u32 {
    ghost use Rattle.bosh_entry.specs.Number.{number, is_small, small_at};

    ghost spelling = { λ _. number };

    ghost fits = { λ _. is_small };

    ghost reading = { λ _. small_at };

    fn write(&self, out: &mut Vec<u8>) -> Result<(), EntryFault> {
        u64::from(*self).write(out)
    }

    #[tactic(auto, unfolding(crate::specs::Number::small_at))]
    fn read(_alloc: Global, _format: Format, from: &mut Source) -> Result<Self, EntryFault> {
        let number = from.number()?;
        if number > u64::from(u32::MAX) {
            return Err(EntryFault::NotAnEntry);
        }
        Ok(number as u32)
    }
}

/// The number of a worker, which stands in eight bytes as any other number.
#[tactic(auto, unfolding(crate::specs::Number::worker_at))]
pub fn worker(from: &mut Source) -> Result<u8, EntryFault>
    ensures { Gives result from.new.rest.now (worker_at from.old.rest.now) }
{
    let number = from.number()?;
    if number > u64::from(u8::MAX) {
        return Err(EntryFault::NotAnEntry);
    }
    Ok(number as u8)
}
