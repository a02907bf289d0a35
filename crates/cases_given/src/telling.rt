//! Outcomes of values and faults that derive `Debug`: they are told by their names and numbers.
use crate::{CaseFault, Outcome};
use std::alloc::Global;
use std::fmt;

// Whether a word of a `Debug` text is the name of a field, or nothing.
fn is_mark(word: &str) -> bool {
    word.is_empty() || word.ends_with(':')
}

fn push_word(words: &mut String, word: &str) -> Result<(), CaseFault> {
    if !words.is_empty() {
        words.push_str(" ")?;
    }
    Ok(words.push_str(word)?)
}

/// The names and numbers of a value, as `Syntax 3`, with blanks between them.
pub fn words_of<T: fmt::Debug>(alloc: Global, value: &T) -> Result<Vec<u8>, CaseFault> {
    let text = format!(in alloc; "{value:?}")?;
    let mut words = String::new(alloc);
    for word in text.split([' ', ',', '{', '}', '(', ')']) {
        if !is_mark(word) {
            push_word(&mut words, word)?;
        }
    }
    Ok(words.into_bytes())
}

/// A call gave this value.
pub fn named<T: fmt::Debug>(alloc: Global, value: &T) -> Result<Outcome, CaseFault> {
    Ok(Outcome::gives(words_of(alloc, value)?))
}

/// A call refused what was given, by this fault. Want of memory is no refusal.
pub fn refused<E: fmt::Debug>(alloc: Global, fault: &E) -> Result<Outcome, CaseFault> {
    let words = words_of(alloc, fault)?;
    if words.as_slice() == b"Memory".as_slice() {
        return Err(CaseFault::Memory);
    }
    Ok(Outcome::refuses(words))
}

/// A call gave a value, which is told so, or refused what was given. Generic, since to let either go is dear to prove.
pub fn told<T: Drop, E: fmt::Debug + Drop, F>(
    alloc: Global,
    answer: Result<T, E>,
    tell: F,
) -> Result<Outcome, CaseFault>
where
    F: FnOnce(Global, &T) -> Result<Vec<u8>, CaseFault> + Drop,
    requires { F.IsAlwaysCallable tell }
{
    match answer {
        Ok(value) => Ok(Outcome::gives(tell(alloc, &value)?)),
        Err(fault) => refused(alloc, &fault),
    }
}
