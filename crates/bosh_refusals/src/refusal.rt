ghost use Rattle.std.specs.Prelude.{◌≡◌, Option, Some, [], ◌∷◌, IfOk};
ghost use Rattle.bosh_base.specs.declared.reply.Refusal.{Refusal};
ghost use Rattle.bosh_refusals.specs.Refused.{bare_refusal, refusal_with, refusal_with_both};

use bosh_base::{Refusal, Seq, Text};
use bosh_report::{Piece, ReportFault, text_of};
use std::alloc::Global;

/// A fault that a command may be refused by.
pub trait Refuses {
    /// How it is told. Want of memory is told by none: it ends the session.
    ghost told: { Self → Option Refusal };

    /// The refusal that tells it.
    fn refusal(&self, alloc: Global) -> Result<Refusal, ReportFault>
        ensures { IfOk result (λ it. told self.now ≡ Some it) };
}

fn copied(alloc: Global, bytes: &[u8]) -> Result<Text, ReportFault>
    ensures { IfOk result (λ text. text ≡ bytes.now) }
{
    Ok(Text::from(Vec::from_slice(alloc, bytes)?))
}

// The word of a part and its reason.
fn reason(alloc: Global, word: &[u8], variant: &[u8]) -> Result<(Text, Text), ReportFault>
    ensures { IfOk result (λ both. (both.0 ≡ word.now) × (both.1 ≡ variant.now)) }
{
    let word = copied(alloc, word)?;
    Ok((word, copied(alloc, variant)?))
}

fn one(alloc: Global, field: Text) -> Result<Seq<Text>, ReportFault>
    ensures { IfOk result (λ fields. fields ≡ field ∷ []) }
{
    let mut fields = Vec::new(alloc);
    fields.push(field)?;
    Ok(Seq::from(fields))
}

fn two(alloc: Global, first: Text, second: Text) -> Result<Seq<Text>, ReportFault>
    ensures { IfOk result (λ fields. fields ≡ first ∷ second ∷ []) }
{
    let mut fields = Vec::new(alloc);
    fields.push(first)?;
    fields.push(second)?;
    Ok(Seq::from(fields))
}

fn texts<A: Piece, B: Piece>(
    alloc: Global,
    first: &A,
    second: &B,
) -> Result<(Text, Text), ReportFault>
    ensures { IfOk result (λ both. (both.0 ≡ A.text first.now) × (both.1 ≡ B.text second.now)) }
{
    let first = text_of(alloc, first)?;
    Ok((first, text_of(alloc, second)?))
}

fn with(
    alloc: Global,
    word: &[u8],
    variant: &[u8],
    fields: Seq<Text>,
) -> Result<Refusal, ReportFault>
    ensures { IfOk result (λ it. it ≡ record { word = word.now; variant = variant.now; fields = fields }) }
{
    let (word, variant) = reason(alloc, word, variant)?;
    Ok(Refusal {
        word,
        variant,
        fields,
    })
}

/// A reason that names nothing.
pub fn refused(alloc: Global, word: &[u8], variant: &[u8]) -> Result<Refusal, ReportFault>
    ensures { IfOk result (λ it. it ≡ bare_refusal word.now variant.now) }
{
    with(alloc, word, variant, Seq::new(alloc))
}

/// A reason that names one thing.
pub fn refused_with<T: Piece>(
    alloc: Global,
    word: &[u8],
    variant: &[u8],
    named: &T,
) -> Result<Refusal, ReportFault>
    ensures { IfOk result (λ it. it ≡ refusal_with word.now variant.now (T.text named.now)) }
{
    let field = text_of(alloc, named)?;
    let fields = one(alloc, field)?;
    with(alloc, word, variant, fields)
}

/// A reason that names two things.
pub(crate) fn refused_both<A: Piece, B: Piece>(
    alloc: Global,
    word: &[u8],
    variant: &[u8],
    first: &A,
    second: &B,
) -> Result<Refusal, ReportFault>
    ensures { IfOk result (λ it. it ≡ refusal_with_both word.now variant.now (A.text first.now) (B.text second.now)) }
{
    let (first, second) = texts(alloc, first, second)?;
    let fields = two(alloc, first, second)?;
    with(alloc, word, variant, fields)
}
