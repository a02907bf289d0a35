//! Scalars on a line, as values and as keys.

ghost use Rattle.std.specs.Prelude.{◌≡◌, ◌<◌, length, IfOk, IfSome};
ghost use Rattle.std.specs.Option.{option_map};
ghost use Rattle.bosh_yaml.specs.Result.{Gives};
ghost use Rattle.bosh_yaml.specs.Word.{key_of, leaf_of, plain_word as plain_words, quoted_word, text_of as texts, word_at as words};

use crate::bare::{Place, plain_len, starts_plain, trim_end};
use crate::fault::ReadFault;
use crate::plain::{Leaf, is_word, plain};
use crate::quoted::{double_quoted, single_quoted};
use crate::text::Str;
use std::alloc::Global;

/// A scalar as it is written.
#[derive(Drop)]
pub(crate) enum Word {
    Quoted(Str),
    Plain(Str),
}

// The scalar at the front of the bytes, and what follows it.
pub(crate) fn word_at(
    alloc: Global,
    place: Place,
    line: u32,
    bytes: &[u8],
) -> Result<(Word, &[u8]), ReadFault>
    ensures gives { Gives (λ p. (p.0, p.1.now)) result (words place line bytes.now) }
    ensures shorter { IfOk result (λ p. length p.1.now < length bytes.now) }
{
    let Some((first, rest)) = bytes.split_first() else {
        return Err(ReadFault::Syntax { line });
    };
    match *first {
        b'\'' => quoted(line, single_quoted(alloc, rest)?),
        b'"' => quoted(line, double_quoted(alloc, rest)?),
        _ => plain_word(alloc, place, line, bytes),
    }
}

fn quoted(line: u32, found: Option<(Vec<u8>, &[u8])>) -> Result<(Word, &[u8]), ReadFault>
    ensures gives { Gives (λ p. (p.0, p.1.now)) result (quoted_word line (option_map (λ p. (p.0.items, p.1.now)) found.entry)) }
    ensures rest { IfOk result (λ p. IfSome found.entry (λ q. p.1.now ≡ q.1.now)) }
{
    match found {
        Some((text, rest)) => {
            let text = text_of(line, text)?;
            Ok((Word::Quoted(text), rest))
        }
        None => Err(ReadFault::Syntax { line }),
    }
}

fn plain_word(
    alloc: Global,
    place: Place,
    line: u32,
    bytes: &[u8],
) -> Result<(Word, &[u8]), ReadFault>
    ensures gives { Gives (λ p. (p.0, p.1.now)) result (plain_words place line bytes.now) }
    ensures shorter { IfOk result (λ p. length p.1.now < length bytes.now) }
{
    if !starts_plain(bytes) {
        return Err(ReadFault::Syntax { line });
    }
    let len = plain_len(place, bytes);
    if len == 0 {
        return Err(ReadFault::Syntax { line });
    }
    let (text, rest) = bytes.split_at(len);
    let text = Vec::from_slice(alloc, trim_end(text))?;
    Ok((Word::Plain(text_of(line, text)?), rest))
}

#[tactic(auto, using(crate::proofs::TextLemmas::texts))]
pub(crate) fn text_of(line: u32, bytes: Vec<u8>) -> Result<Str, ReadFault>
    ensures { Gives (λ s. s) result (texts line bytes.items) }
{
    match Str::from_vec(bytes) {
        Some(text) => Ok(text),
        None => Err(ReadFault::Syntax { line }),
    }
}

impl Word {
    // The scalar as a value.
    pub(crate) fn leaf(self) -> Leaf
        ensures { result ≡ leaf_of self }
    {
        match self {
            Word::Quoted(text) => Leaf::Text(text),
            Word::Plain(text) => plain(text),
        }
    }

    // The scalar as a key.
    pub(crate) fn key(self, line: u32) -> Result<Str, ReadFault>
        ensures { Gives (λ s. s) result (key_of line self) }
    {
        match self {
            Word::Quoted(text) => Ok(text),
            Word::Plain(text) => {
                if is_word(text.as_bytes(), b"<<") {
                    return Err(ReadFault::Syntax { line });
                }
                Ok(text)
            }
        }
    }
}
