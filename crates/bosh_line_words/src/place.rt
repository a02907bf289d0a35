ghost use Rattle.std.specs.Prelude.{◌≡◌, ℕ, List, Bool, IfOk, IfErr, MatchOption, Some, true, false};
ghost use Rattle.bosh_line_words.specs.Grammar.{IsTaken, place_fault};
ghost use Rattle.bosh_line_words.specs.Words.{words_in};

use crate::{LineFault, Rest};

/// What may stand at a place of a line.
pub trait Place<'a>: Copy {
    /// Whether a word may stand there.
    ghost fits: { List ℕ → Bool };

    /// A word that may is read as this.
    ghost reads: { List ℕ → Self → Type 0 };

    fn read(text: &'a [u8]) -> Option<Self>
        ensures { MatchOption result (fits text.now ≡ false) (λ value. (fits text.now ≡ true) × reads text.now value) };
}

/// What the next word is at its place, and what is left after it. There is `Missing` where no word is left, and
/// `BadArgument` where the word may not stand there.
pub fn take<'a, P: Place<'a>>(rest: Rest<'a>) -> Result<(P, Rest<'a>), LineFault>
    ensures ok { IfOk result (λ taken. IsTaken P.fits P.reads (words_in rest.entry) taken.0 (words_in taken.1)) }
    ensures refused { IfErr result (λ fault. place_fault P.fits (words_in rest.entry) ≡ Some fault) }
{
    let Some((word, left)) = rest.next() else {
        return Err(LineFault::Missing);
    };
    match P::read(word.text) {
        Some(value) => Ok((value, left)),
        None => Err(LineFault::BadArgument { place: word.place }),
    }
}
