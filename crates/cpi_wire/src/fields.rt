//! Arrays of fields.
ghost use Rattle.std.specs.Prelude.{◌≡◌, ◌<◌, ◌++◌, ◌∷◌, ◌&&◌, true, OnOk, IfErr};
ghost use Rattle.serde_json.specs.View.{view};
ghost use Rattle.serde_json.specs.Written.{compact_text};
ghost use Rattle.cpi_wire.specs.Fields.{field, five_data, five_from, one_data, one_from, pair_at, three_data, three_from, two_data, two_from};
ghost use Rattle.cpi_wire.specs.Reading.{Gives};
ghost use Rattle.cpi_wire.specs.declared.fault.WireFault.TheVariants.{Memory};

use crate::fault::WireFault;
use crate::wired::Wired;
use crate::write::add;
use serde_json::Value;
use std::alloc::Global;

/// Adds a comma, and a field.
pub(crate) fn write_next<T: Wired>(field: &T, out: &mut Vec<u8>) -> Result<(), WireFault>
    ensures ok { OnOk result (out.new.items ≡ out.old.items ++ 44 ∷ compact_text (T.image field.now)) }
    ensures fits { OnOk result (T.fits field.now ≡ true) }
    ensures err { IfErr result (λ fault. fault ≡ Memory) }
{
    add(b",", out)?;
    field.write(out)
}

/// Adds an array of one field.
pub fn write_one<A: Wired>(field: &A, out: &mut Vec<u8>) -> Result<(), WireFault>
    ensures ok { OnOk result (out.new.items ≡ out.old.items ++ compact_text (one_data A.image field.now)) }
    ensures fits { OnOk result (A.fits field.now ≡ true) }
    ensures err { IfErr result (λ fault. fault ≡ Memory) }
{
    add(b"[", out)?;
    field.write(out)?;
    add(b"]", out)
}

/// Adds an array of two fields.
pub fn write_two<A: Wired, B: Wired>(
    first: &A,
    second: &B,
    out: &mut Vec<u8>,
) -> Result<(), WireFault>
    ensures ok { OnOk result (out.new.items ≡ out.old.items ++ compact_text (two_data A.image B.image first.now second.now)) }
    ensures fits { OnOk result ((A.fits first.now && B.fits second.now) ≡ true) }
    ensures err { IfErr result (λ fault. fault ≡ Memory) }
{
    add(b"[", out)?;
    first.write(out)?;
    write_next(second, out)?;
    add(b"]", out)
}

/// Adds an array of three fields.
pub fn write_three<A: Wired, B: Wired, C: Wired>(
    first: &A,
    second: &B,
    third: &C,
    out: &mut Vec<u8>,
) -> Result<(), WireFault>
    ensures ok { OnOk result (out.new.items ≡ out.old.items ++ compact_text (three_data A.image B.image C.image first.now second.now third.now)) }
    ensures fits { OnOk result ((A.fits first.now && B.fits second.now && C.fits third.now) ≡ true) }
    ensures err { IfErr result (λ fault. fault ≡ Memory) }
{
    add(b"[", out)?;
    first.write(out)?;
    write_next(second, out)?;
    write_next(third, out)?;
    add(b"]", out)
}

/// Adds an array of five fields.
// Dear to prove, as are that of three and their readers; each is proved once, for all structs of that many fields.
pub(crate) fn write_five<A: Wired, B: Wired, C: Wired, D: Wired, E: Wired>(
    first: &A,
    second: &B,
    third: &C,
    fourth: &D,
    fifth: &E,
    out: &mut Vec<u8>,
) -> Result<(), WireFault>
    ensures ok { OnOk result (out.new.items ≡ out.old.items ++ compact_text (five_data A.image B.image C.image D.image E.image first.now second.now third.now fourth.now fifth.now)) }
    ensures fits { OnOk result ((A.fits first.now && B.fits second.now && C.fits third.now && D.fits fourth.now && E.fits fifth.now) ≡ true) }
    ensures err { IfErr result (λ fault. fault ≡ Memory) }
{
    add(b"[", out)?;
    first.write(out)?;
    write_next(second, out)?;
    write_next(third, out)?;
    write_next(fourth, out)?;
    write_next(fifth, out)?;
    add(b"]", out)
}

// The field at a place, counted from 0.
fn field<T: Wired>(alloc: Global, value: &Value, place: usize) -> Result<T, WireFault>
    ensures { Gives result (field T.reading place (view value.now)) }
{
    match value.get(place) {
        Some(value) => T::read(alloc, value),
        None => Err(WireFault::NotAValue),
    }
}

/// The field of an array of one.
pub fn read_one<A: Wired>(alloc: Global, value: &Value) -> Result<A, WireFault>
    ensures { Gives result (one_from A.reading (view value.now)) }
{
    if value.get(1usize).is_some() {
        return Err(WireFault::NotAValue);
    }
    field(alloc, value, 0)
}

// The fields at a place and after it.
fn pair_at<A: Wired, B: Wired>(
    alloc: Global,
    value: &Value,
    place: usize,
) -> Result<(A, B), WireFault>
    requires { place < 8 }
    ensures { Gives result (pair_at A.reading B.reading place (view value.now)) }
{
    let first = field(alloc, value, place)?;
    let second = field(alloc, value, place + 1)?;
    Ok((first, second))
}

/// The fields of an array of two.
pub fn read_two<A: Wired, B: Wired>(alloc: Global, value: &Value) -> Result<(A, B), WireFault>
    ensures { Gives result (two_from A.reading B.reading (view value.now)) }
{
    if value.get(2usize).is_some() {
        return Err(WireFault::NotAValue);
    }
    pair_at(alloc, value, 0)
}

/// The fields of an array of three.
pub fn read_three<A: Wired, B: Wired, C: Wired>(
    alloc: Global,
    value: &Value,
) -> Result<(A, B, C), WireFault>
    ensures { Gives result (three_from A.reading B.reading C.reading (view value.now)) }
{
    if value.get(3usize).is_some() {
        return Err(WireFault::NotAValue);
    }
    let (first, second) = pair_at(alloc, value, 0)?;
    let third = field(alloc, value, 2)?;
    Ok((first, second, third))
}

/// The fields of an array of five.
pub(crate) fn read_five<A: Wired, B: Wired, C: Wired, D: Wired, E: Wired>(
    alloc: Global,
    value: &Value,
) -> Result<(A, B, C, D, E), WireFault>
    ensures { Gives result (five_from A.reading B.reading C.reading D.reading E.reading (view value.now)) }
{
    if value.get(5usize).is_some() {
        return Err(WireFault::NotAValue);
    }
    let (first, second) = pair_at(alloc, value, 0)?;
    let (third, fourth) = pair_at(alloc, value, 2)?;
    let fifth = field(alloc, value, 4)?;
    Ok((first, second, third, fourth, fifth))
}
