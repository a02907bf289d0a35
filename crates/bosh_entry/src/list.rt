ghost use Rattle.std.specs.Prelude.{◌≡◌, ◌++◌, true, OnOk, IfErr};
ghost use Rattle.std.specs.List.{flat_map, list_all};
ghost use Rattle.bosh_entry.specs.Reading.{Gives};
ghost use Rattle.bosh_entry.specs.List.{list, is_list, items_at};
ghost use Rattle.bosh_entry.specs.declared.fault.EntryFault.TheVariants.{Memory};
ghost use Rattle.bosh_entry.specs.declared.format.Format.TheVariants.{Present};

use crate::coded::Coded;
use crate::fault::EntryFault;
use crate::format::Format;
use crate::source::Source;
use bosh_base::Seq;
use std::alloc::Global;

/// Adds the spellings of items, one after the other.
fn write_one_by_one<T: Coded>(items: &[T], out: &mut Vec<u8>) -> Result<(), EntryFault>
    ensures ok { OnOk result (out.new.items ≡ out.old.items ++ flat_map (T.spelling Present) items.now) }
    ensures fits { OnOk result (list_all (T.fits Present) items.now ≡ true) }
    ensures err { IfErr result (λ fault. fault ≡ Memory) }
{
    for item in items {
        item.write(out)?;
    }
    Ok(())
}

/// So many values, which the next bytes spell. Each takes at least a byte, so a count beyond the bytes that are left
/// takes no memory of its own.
fn read_one_by_one<T: Coded>(
    alloc: Global,
    format: Format,
    count: u64,
    from: &mut Source,
) -> Result<Seq<T>, EntryFault>
    ensures { Gives result from.new.rest.now (items_at (T.reading format) count from.old.rest.now) }
{
    let mut items = Vec::new(alloc);
    for _ in 0..count {
        items.push(T::read(alloc, format, from)?)?;
    }
    Ok(Seq::from(items))
}

impl<T: Coded> Coded for Seq<T> {
    ghost use Rattle.bosh_entry.specs.List.{list_at};

    ghost spelling = { λ format. list (T.spelling format) };

    ghost fits = { λ format. is_list (T.fits format) };

    ghost reading = { λ format. list_at (T.reading format) };

    fn write(&self, out: &mut Vec<u8>) -> Result<(), EntryFault> {
        (self.len() as u64).write(out)?;
        write_one_by_one(self.as_slice(), out)
    }

    #[tactic(auto, unfolding(crate::specs::List::list_at))]
    fn read(alloc: Global, format: Format, from: &mut Source) -> Result<Self, EntryFault> {
        let count = from.number()?;
        read_one_by_one(alloc, format, count, from)
    }
}
