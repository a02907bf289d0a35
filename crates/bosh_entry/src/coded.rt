ghost use Rattle.std.specs.Prelude.{◌≡◌, ◌++◌, ℕ, Bool, true, List, OnOk, IfErr};
ghost use Rattle.bosh_entry.specs.Reading.{Gives, Reader};
ghost use Rattle.bosh_entry.specs.declared.fault.EntryFault.TheVariants.{Memory};
ghost use Rattle.bosh_entry.specs.declared.format.Format.TheVariants.{Present};

use crate::fault::EntryFault;
use crate::format::Format;
use crate::source::Source;
use std::alloc::Global;

/// A type whose values are spelled in bytes, one after the other.
pub trait Coded: Sized + Drop {
    ghost use Rattle.bosh_entry.specs.declared.format.Format.{Format};

    ghost spelling: { Format → Self → List ℕ };

    /// Whether a value has a spelling.
    ghost fits: { Format → Self → Bool };

    ghost reading: { Format → Reader Self };

    /// Adds the spelling in the present format at the end, in which each value has one.
    fn write(&self, out: &mut Vec<u8>) -> Result<(), EntryFault>
        ensures ok { OnOk result (out.new.items ≡ out.old.items ++ spelling Present self.now) }
        ensures fits { OnOk result (fits Present self.now ≡ true) }
        ensures err { IfErr result (λ fault. fault ≡ Memory) };

    /// The value that the next bytes spell.
    fn read(alloc: Global, format: Format, from: &mut Source) -> Result<Self, EntryFault>
        ensures { Gives result from.new.rest.now (reading format from.old.rest.now) };
}
