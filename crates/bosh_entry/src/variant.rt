ghost use Rattle.std.specs.Prelude.{◌≡◌, ◌++◌, ◌∷◌, [], true, OnOk, IfErr};
ghost use Rattle.bosh_entry.specs.declared.fault.EntryFault.TheVariants.{Memory};
ghost use Rattle.bosh_entry.specs.declared.format.Format.TheVariants.{Present};

use crate::coded::Coded;
use crate::fault::EntryFault;

/// Adds the place of a variant that has one field, and the field.
pub fn write_variant<T: Coded>(place: u8, field: &T, out: &mut Vec<u8>) -> Result<(), EntryFault>
    ensures ok { OnOk result (out.new.items ≡ out.old.items ++ place ∷ T.spelling Present field.now) }
    ensures fits { OnOk result (T.fits Present field.now ≡ true) }
    ensures err { IfErr result (λ fault. fault ≡ Memory) }
{
    out.push(place)?;
    field.write(out)
}

/// Adds the place of a variant that has no field.
pub fn write_place(place: u8, out: &mut Vec<u8>) -> Result<(), EntryFault>
    ensures ok { OnOk result (out.new.items ≡ out.old.items ++ place ∷ []) }
    ensures err { IfErr result (λ fault. fault ≡ Memory) }
{
    out.push(place)?;
    Ok(())
}
