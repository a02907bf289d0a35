//! What stands between the blanks of a text.
use bosh_base::{Seq, Text};
use bosh_yaml::Node;
use cases_given::{CaseFault, word_of};
use std::alloc::Global;
use std::str::SplitWhitespace;

/// A value that is written in words.
pub trait Worded: Drop {
    /// The value that the next words write.
    fn of(alloc: Global, words: &mut SplitWhitespace<'_>) -> Result<Self, CaseFault>;
}

/// The value that a whole text writes.
pub fn whole<T: Worded>(alloc: Global, text: &str) -> Result<T, CaseFault> {
    let mut words = text.split_whitespace();
    let value = T::of(alloc, &mut words)?;
    match words.next() {
        None => Ok(value),
        Some(_) => Err(CaseFault::Form),
    }
}

/// The value that the text of a node writes.
pub fn of_words<T: Worded>(alloc: Global, node: &Node) -> Result<T, CaseFault> {
    whole(alloc, word_of(node)?)
}

/// The next word.
pub fn word<'a>(words: &mut SplitWhitespace<'a>) -> Result<&'a str, CaseFault> {
    words.next().ok_or(CaseFault::Form)
}

/// The number that a word writes.
pub fn number_of(word: &str) -> Result<u64, CaseFault> {
    match word.parse::<u64>() {
        Ok(number) => Ok(number),
        Err(_) => Err(CaseFault::Form),
    }
}

/// The number that the next word writes.
pub fn number(words: &mut SplitWhitespace<'_>) -> Result<u64, CaseFault> {
    number_of(word(words)?)
}

/// The number after a word that has to stand there.
pub fn number_after(words: &mut SplitWhitespace<'_>, expected: &str) -> Result<u64, CaseFault> {
    if word(words)? != expected {
        return Err(CaseFault::Form);
    }
    number(words)
}

fn add_number(numbers: &mut Seq<u64>, word: &str) -> Result<(), CaseFault> {
    match numbers.push(number_of(word)?) {
        Ok(()) => Ok(()),
        Err(_) => Err(CaseFault::Memory),
    }
}

/// Numbers with commas between them, or `none`.
pub fn numbers(alloc: Global, word: &str) -> Result<Seq<u64>, CaseFault> {
    let mut numbers = Seq::new(alloc);
    if word != "none" {
        for number in word.split(',') {
            add_number(&mut numbers, number)?;
        }
    }
    Ok(numbers)
}

/// The bytes of a word.
pub fn text_of(alloc: Global, word: &str) -> Result<Text, CaseFault> {
    Ok(Text::from(Vec::from_slice(alloc, word.as_bytes())?))
}

/// Puts the value that the next words write in the place of another.
pub fn take<T: Worded>(
    alloc: Global,
    place: &mut T,
    words: &mut SplitWhitespace<'_>,
) -> Result<(), CaseFault> {
    *place = T::of(alloc, words)?;
    Ok(())
}

/// The same, where there need be no value.
pub fn take_some<T: Worded>(
    alloc: Global,
    place: &mut Option<T>,
    words: &mut SplitWhitespace<'_>,
) -> Result<(), CaseFault> {
    *place = Some(T::of(alloc, words)?);
    Ok(())
}

/// Adds the value that the next words write to a list.
pub fn add<T: Worded>(
    alloc: Global,
    list: &mut Seq<T>,
    words: &mut SplitWhitespace<'_>,
) -> Result<(), CaseFault> {
    match list.push(T::of(alloc, words)?) {
        Ok(()) => Ok(()),
        Err(_) => Err(CaseFault::Memory),
    }
}
