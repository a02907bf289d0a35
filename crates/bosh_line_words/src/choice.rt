ghost use Rattle.std.specs.Prelude.{◌≡◌, ◌||◌, ℕ, [], List, Bool, Some, None, IfOk, IfErr, find, map, nat_lt};
ghost use Rattle.std.specs.Str.{bytes_eq};
ghost use Rattle.bosh_line_words.specs.Grammar.{choice_of, count, fault_of, has, is_repeated_in};
ghost use Rattle.bosh_line_words.specs.Words.{words_in};
ghost use Rattle.std.specs.List.{list_any};

use crate::{LineFault, Place, Rest, is_text, take};

/// An option that may stand after the places of a line.
#[derive(Clone, Copy)]
pub struct Choice<'a> {
    pub name: &'a [u8],
    /// Whether the word after it is its value.
    pub takes_value: bool,
    /// Whether it may be given more than once.
    pub repeats: bool,
}

/// Nothing but spaces is left. There is `Extra` where a word is, or `BadArgument` at the first that is not UTF-8.
#[tactic(auto, using(crate::proofs::GrammarLemmas::leaves))]
pub fn end(rest: Rest<'_>) -> Result<(), LineFault>
    ensures ok { IfOk result (λ _. fault_of [] [] (words_in rest.entry) ≡ None) }
    ensures none_left { IfOk result (λ _. words_in rest.entry ≡ []) }
    ensures refused { IfErr result (λ fault. fault_of [] [] (words_in rest.entry) ≡ Some fault) }
{
    let mut spare = false;
    let mut left = rest;
    while let Some((word, more)) = left.next() {
        if !is_text(word.text) {
            return Err(LineFault::BadArgument { place: word.place });
        }
        spare = true;
        left = more;
    }
    if spare { Err(LineFault::Extra) } else { Ok(()) }
}

fn named<'a>(choices: &[Choice<'a>], text: &[u8]) -> Option<Choice<'a>>
    ensures { result ≡ find (λ choice. bytes_eq text.now choice.name.now) choices.now }
{
    choices.iter().copied().find(|choice| text == choice.name)
}

/// Whether some word that is left is this.
pub fn has(rest: Rest<'_>, text: &[u8]) -> bool
    ensures { result ≡ has text.now (words_in rest.entry) }
{
    let mut left = rest;
    while let Some((word, more)) = left.next() {
        if word.text == text {
            return true;
        }
        left = more;
    }
    false
}

// Whether a word that is left is this more than once.
fn is_twice(rest: Rest<'_>, text: &[u8]) -> bool
    ensures { result ≡ nat_lt 1 (count text.now (words_in rest.entry)) }
{
    let mut seen = false;
    let mut left = rest;
    while let Some((word, more)) = left.next() {
        if word.text == text {
            if seen {
                return true;
            }
            seen = true;
        }
        left = more;
    }
    false
}

// Whether an option is given more than once that may not be.
fn is_repeated(rest: Rest<'_>, choices: &[Choice]) -> bool
    ensures { result ≡ list_any (is_repeated_in (words_in rest.entry)) choices.now }
{
    choices
        .iter()
        .any(|choice| !choice.repeats && is_twice(rest, choice.name))
}

fn is_over(spare: bool, rest: Rest<'_>, choices: &[Choice]) -> bool
    ensures { result ≡ (spare || list_any (is_repeated_in (words_in rest.entry)) choices.now) }
{
    spare || is_repeated(rest, choices)
}

/// What is left are options of a table, in any order. The words that `V` may be are the values of those that take one. There
/// is `BadArgument` at the first word that is not of its kind, else `Missing` where the last option lacks its value, else
/// `Extra` where a word names no option, or one is given once too often.
#[tactic(auto, using(crate::proofs::GrammarLemmas::leaves))]
pub fn options<'a, V: Place<'a>>(rest: Rest<'a>, choices: &[Choice]) -> Result<(), LineFault>
    ensures ok { IfOk result (λ _. fault_of [] (map (choice_of V.fits) choices.now) (words_in rest.entry) ≡ None) }
    ensures refused { IfErr result (λ fault. fault_of [] (map (choice_of V.fits) choices.now) (words_in rest.entry) ≡ Some fault) }
{
    let mut spare = false;
    let mut left = rest;
    while let Some((word, more)) = left.next() {
        match named(choices, word.text) {
            Some(choice) if choice.takes_value => {
                let (_value, past) = take::<V>(more)?;
                left = past;
            }
            Some(_) => left = more,
            None => {
                if !is_text(word.text) {
                    return Err(LineFault::BadArgument { place: word.place });
                }
                spare = true;
                left = more;
            }
        }
    }
    if is_over(spare, rest, choices) {
        Err(LineFault::Extra)
    } else {
        Ok(())
    }
}
