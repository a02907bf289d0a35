ghost use Rattle.std.specs.Prelude.{◌≡◌, ℕ, List, ◌++◌, OnOk, decimal};
ghost use Rattle.std.specs.List.{flat_map};
ghost use Rattle.hex.specs.Hex.{encode_lower};
ghost use Rattle.bosh_report.specs.Piece.{list_text, or_dash};

use crate::ReportFault;
use bosh_base::{Digest, Name, Text};

/// A value that replies name.
pub trait Piece {
    /// How they name it.
    ghost text: { Self → List ℕ };

    /// Adds its text to what is printed so far.
    fn add_to(&self, out: &mut Vec<u8>) -> Result<(), ReportFault>
        ensures { OnOk result (out.new.items ≡ out.old.items ++ text self.now) };
}

pub(crate) fn add(out: &mut Vec<u8>, bytes: &[u8]) -> Result<(), ReportFault>
    ensures { OnOk result (out.new.items ≡ out.old.items ++ bytes.now) }
{
    out.extend_from_slice(bytes)?;
    Ok(())
}

pub(crate) fn add_number(out: &mut Vec<u8>, number: u64) -> Result<(), ReportFault>
    ensures { OnOk result (out.new.items ≡ out.old.items ++ decimal number) }
{
    let mut digits = itoa::Buffer::new();
    add(out, digits.format(number).as_bytes())
}

/// Adds pieces, each with the same bytes before it.
pub(crate) fn add_each_after<T: Piece>(
    out: &mut Vec<u8>,
    before: &[u8],
    pieces: &[T],
) -> Result<(), ReportFault>
    ensures { OnOk result (out.new.items ≡ out.old.items ++ flat_map (λ piece. before.now ++ T.text piece) pieces.now) }
{
    for piece in pieces {
        add(out, before)?;
        piece.add_to(out)?;
    }
    Ok(())
}

/// Adds pieces, one after another.
pub(crate) fn add_each<T: Piece>(out: &mut Vec<u8>, pieces: &[T]) -> Result<(), ReportFault>
    ensures { OnOk result (out.new.items ≡ out.old.items ++ flat_map T.text pieces.now) }
{
    add_each_after(out, b"", pieces)
}

/// Adds pieces with commas between them, and `-` where there are none.
pub(crate) fn add_list<T: Piece>(out: &mut Vec<u8>, pieces: &[T]) -> Result<(), ReportFault>
    ensures { OnOk result (out.new.items ≡ out.old.items ++ list_text T.text pieces.now) }
{
    match pieces {
        [] => add(out, b"-"),
        [first, rest @ ..] => {
            first.add_to(out)?;
            add_each_after(out, b",", rest)
        }
    }
}

/// A value that may be missing, which `-` stands for.
impl<T: Piece> Piece for Option<T> {
    ghost text = { or_dash T.text };

    fn add_to(&self, out: &mut Vec<u8>) -> Result<(), ReportFault> {
        match self {
            None => add(out, b"-"),
            Some(piece) => piece.add_to(out),
        }
    }
}

/// Bytes that stand for themselves.
#[derive(Clone, Copy)]
pub struct Word<'a>(pub &'a [u8]);

impl<'a> Piece for Word<'a> {
    ghost text = { λ word. word.0.now };

    fn add_to(&self, out: &mut Vec<u8>) -> Result<(), ReportFault> {
        add(out, self.0)
    }
}

impl Piece for u64 {
    ghost text = { decimal };

    fn add_to(&self, out: &mut Vec<u8>) -> Result<(), ReportFault> {
        add_number(out, *self)
    }
}

impl Piece for Name {
    ghost text = { λ name. name };

    fn add_to(&self, out: &mut Vec<u8>) -> Result<(), ReportFault> {
        add(out, self.as_bytes())
    }
}

impl Piece for Text {
    ghost text = { λ bytes. bytes };

    fn add_to(&self, out: &mut Vec<u8>) -> Result<(), ReportFault> {
        add(out, self.as_slice())
    }
}

/// In hex.
impl Piece for Digest {
    ghost text = { λ digest. encode_lower digest.0 };

    fn add_to(&self, out: &mut Vec<u8>) -> Result<(), ReportFault> {
        let mut digits = [0u8; 64];
        let _ = hex::encode_to_slice(&self.0, &mut digits);
        add(out, &digits)
    }
}
