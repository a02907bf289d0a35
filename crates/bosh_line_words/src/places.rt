ghost use Rattle.std.specs.Prelude.{[], ◌∷◌, IfErr, IfOk};
ghost use Rattle.bosh_line_words.specs.Grammar.{IsRefused};
ghost use Rattle.bosh_line_words.specs.Places.{IsFive, IsFour, IsOne, IsThree, IsTwo};
ghost use Rattle.bosh_line_words.specs.Words.{words_in};

use crate::{LineFault, Place, Rest, end, take};

/// The word of a line that has one place.
#[tactic(auto, using(crate::proofs::GrammarLemmas::reading))]
pub fn one<'a, A: Place<'a>>(rest: Rest<'a>) -> Result<A, LineFault>
    ensures ok { IfOk result (IsOne A.fits A.reads (words_in rest.entry)) }
    ensures refused { IfErr result (IsRefused (A.fits ∷ []) [] (words_in rest.entry)) }
{
    let (a, left) = take::<A>(rest)?;
    end(left)?;
    Ok(a)
}

/// The words of a line that has two places.
#[tactic(auto, using(crate::proofs::GrammarLemmas::reading))]
pub fn two<'a, A: Place<'a>, B: Place<'a>>(rest: Rest<'a>) -> Result<(A, B), LineFault>
    ensures ok { IfOk result (λ it. IsTwo A.fits A.reads B.fits B.reads (words_in rest.entry) it.0 it.1) }
    ensures refused { IfErr result (IsRefused (A.fits ∷ B.fits ∷ []) [] (words_in rest.entry)) }
{
    let (a, left) = take::<A>(rest)?;
    let b = one::<B>(left)?;
    Ok((a, b))
}

/// The words of a line that has three places.
#[tactic(auto, using(crate::proofs::GrammarLemmas::reading))]
pub fn three<'a, A: Place<'a>, B: Place<'a>, C: Place<'a>>(
    rest: Rest<'a>,
) -> Result<(A, B, C), LineFault>
    ensures ok { IfOk result (λ it. IsThree A.fits A.reads B.fits B.reads C.fits C.reads (words_in rest.entry) it.0 it.1 it.2) }
    ensures refused { IfErr result (IsRefused (A.fits ∷ B.fits ∷ C.fits ∷ []) [] (words_in rest.entry)) }
{
    let (a, left) = take::<A>(rest)?;
    let (b, c) = two::<B, C>(left)?;
    Ok((a, b, c))
}

/// The words of a line that has four places.
#[tactic(auto, using(crate::proofs::GrammarLemmas::reading))]
pub fn four<'a, A: Place<'a>, B: Place<'a>, C: Place<'a>, D: Place<'a>>(
    rest: Rest<'a>,
) -> Result<(A, B, C, D), LineFault>
    ensures ok { IfOk result (λ it. IsFour A.fits A.reads B.fits B.reads C.fits C.reads D.fits D.reads (words_in rest.entry) it.0 it.1 it.2 it.3) }
    ensures refused { IfErr result (IsRefused (A.fits ∷ B.fits ∷ C.fits ∷ D.fits ∷ []) [] (words_in rest.entry)) }
{
    let (a, left) = take::<A>(rest)?;
    let (b, c, d) = three::<B, C, D>(left)?;
    Ok((a, b, c, d))
}

/// The words of a line that has five places.
#[tactic(auto, using(crate::proofs::GrammarLemmas::reading))]
pub fn five<'a, A: Place<'a>, B: Place<'a>, C: Place<'a>, D: Place<'a>, E: Place<'a>>(
    rest: Rest<'a>,
) -> Result<(A, B, C, D, E), LineFault>
    ensures ok { IfOk result (λ it. IsFive A.fits A.reads B.fits B.reads C.fits C.reads D.fits D.reads E.fits E.reads (words_in rest.entry) it.0 it.1 it.2 it.3 it.4) }
    ensures refused { IfErr result (IsRefused (A.fits ∷ B.fits ∷ C.fits ∷ D.fits ∷ E.fits ∷ []) [] (words_in rest.entry)) }
{
    let (a, left) = take::<A>(rest)?;
    let (b, c, d, e) = four::<B, C, D, E>(left)?;
    Ok((a, b, c, d, e))
}
