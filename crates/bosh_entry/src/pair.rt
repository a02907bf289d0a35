ghost use Rattle.std.specs.Prelude.{◌≡◌, ◌++◌, ◌&&◌, true, OnOk, IfErr};
ghost use Rattle.bosh_entry.specs.declared.fault.EntryFault.TheVariants.{Memory};
ghost use Rattle.bosh_entry.specs.declared.format.Format.TheVariants.{Present};

use crate::coded::Coded;
use crate::fault::EntryFault;
use crate::format::Format;
use crate::source::Source;
use std::alloc::Global;

/// Adds the spellings of two values at the end.
pub fn write_both<A: Coded, B: Coded>(
    first: &A,
    second: &B,
    out: &mut Vec<u8>,
) -> Result<(), EntryFault>
    ensures ok { OnOk result (out.new.items ≡ out.old.items ++ A.spelling Present first.now ++ B.spelling Present second.now) }
    ensures fits { OnOk result ((A.fits Present first.now && B.fits Present second.now) ≡ true) }
    ensures err { IfErr result (λ fault. fault ≡ Memory) }
{
    first.write(out)?;
    second.write(out)
}

/// Adds the spellings of three values at the end.
pub fn write_three<A: Coded, B: Coded, C: Coded>(
    first: &A,
    second: &B,
    third: &C,
    out: &mut Vec<u8>,
) -> Result<(), EntryFault>
    ensures ok { OnOk result (out.new.items ≡ out.old.items ++ A.spelling Present first.now ++ B.spelling Present second.now ++ C.spelling Present third.now) }
    ensures fits { OnOk result ((A.fits Present first.now && B.fits Present second.now && C.fits Present third.now) ≡ true) }
    ensures err { IfErr result (λ fault. fault ≡ Memory) }
{
    write_both(first, second, out)?;
    third.write(out)
}

/// Adds the spellings of four values at the end.
pub fn write_four<A: Coded, B: Coded, C: Coded, D: Coded>(
    first: &A,
    second: &B,
    third: &C,
    fourth: &D,
    out: &mut Vec<u8>,
) -> Result<(), EntryFault>
    ensures ok { OnOk result (out.new.items ≡ out.old.items ++ A.spelling Present first.now ++ B.spelling Present second.now ++ C.spelling Present third.now ++ D.spelling Present fourth.now) }
    ensures fits { OnOk result ((A.fits Present first.now && B.fits Present second.now && C.fits Present third.now && D.fits Present fourth.now) ≡ true) }
    ensures err { IfErr result (λ fault. fault ≡ Memory) }
{
    write_three(first, second, third, out)?;
    fourth.write(out)
}

/// Two values, one after the other. Structs of many fields are read as pairs of pairs, so that what was read before bytes
/// that spell no field is dropped in one place.
impl<A: Coded, B: Coded> Coded for (A, B) {
    ghost use Rattle.bosh_entry.specs.Pair.{pair, is_pair, pair_at};

    ghost spelling = { λ format. pair (A.spelling format) (B.spelling format) };

    ghost fits = { λ format. is_pair (A.fits format) (B.fits format) };

    ghost reading = { λ format. pair_at (A.reading format) (B.reading format) };

    fn write(&self, out: &mut Vec<u8>) -> Result<(), EntryFault> {
        write_both(&self.0, &self.1, out)
    }

    #[tactic(auto, unfolding(crate::specs::Pair::pair_at))]
    fn read(alloc: Global, format: Format, from: &mut Source) -> Result<Self, EntryFault> {
        let first = A::read(alloc, format, from)?;
        let second = B::read(alloc, format, from)?;
        Ok((first, second))
    }
}
