ghost use Rattle.std.specs.Prelude.{◌≡◌, ◌++◌, true, OnOk, IfErr};
ghost use Rattle.std.specs.List.{flat_map, list_all};
ghost use Rattle.bosh_entry.specs.Reading.{Gives, byte_at};
ghost use Rattle.bosh_entry.specs.Number.{byte, is_byte};
ghost use Rattle.bosh_entry.specs.List.{items_at, text, is_text};
ghost use Rattle.bosh_entry.specs.declared.fault.EntryFault.TheVariants.{Memory};

use crate::coded::Coded;
use crate::fault::EntryFault;
use crate::format::Format;
use crate::source::Source;
use bosh_base::Text;
use std::alloc::Global;

/// Adds bytes, all at once.
fn write_bytes(bytes: &[u8], out: &mut Vec<u8>) -> Result<(), EntryFault>
    ensures ok { OnOk result (out.new.items ≡ out.old.items ++ flat_map byte bytes.now) }
    ensures fits { OnOk result (list_all is_byte bytes.now ≡ true) }
    ensures err { IfErr result (λ fault. fault ≡ Memory) }
{
    out.extend_from_slice(bytes)?;
    Ok(())
}

/// So many bytes, all at once.
fn read_bytes(alloc: Global, count: u64, from: &mut Source) -> Result<Text, EntryFault>
    ensures { Gives result from.new.rest.now (items_at byte_at count from.old.rest.now) }
{
    if count > from.rest.len() as u64 {
        return Err(EntryFault::NotAnEntry);
    }
    let (bytes, rest) = from.rest.split_at(count as usize);
    from.rest = rest;
    Ok(Text::from(Vec::from_slice(alloc, bytes)?))
}

/// Adds the spelling of a text at the end.
pub fn write_text(bytes: &[u8], out: &mut Vec<u8>) -> Result<(), EntryFault>
    ensures ok { OnOk result (out.new.items ≡ out.old.items ++ text bytes.now) }
    ensures fits { OnOk result (is_text bytes.now ≡ true) }
    ensures err { IfErr result (λ fault. fault ≡ Memory) }
{
    (bytes.len() as u64).write(out)?;
    write_bytes(bytes, out)
}

impl Coded for Text {
    ghost use Rattle.bosh_entry.specs.List.{text_at};

    ghost spelling = { λ _. text };

    ghost fits = { λ _. is_text };

    ghost reading = { λ _. text_at };

    fn write(&self, out: &mut Vec<u8>) -> Result<(), EntryFault> {
        write_text(self.as_slice(), out)
    }

    #[tactic(auto, unfolding(crate::specs::List::list_at))]
    fn read(alloc: Global, _format: Format, from: &mut Source) -> Result<Self, EntryFault> {
        let count = from.number()?;
        read_bytes(alloc, count, from)
    }
}
