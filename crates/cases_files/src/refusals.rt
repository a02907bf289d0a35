//! Outcomes of calls whose faults the director tells: by the word of a part, a reason, and what the reason names.
use bosh_base::Refusal;
use bosh_refusals::Refuses;
use cases_given::{CaseFault, Outcome};
use std::alloc::Global;

fn push(words: &mut Vec<u8>, word: &[u8]) -> Result<(), CaseFault> {
    words.extend_from_slice(b" ")?;
    Ok(words.extend_from_slice(word)?)
}

fn words_of(alloc: Global, refusal: &Refusal) -> Result<Vec<u8>, CaseFault> {
    let mut words = Vec::from_slice(alloc, refusal.word.as_slice())?;
    push(&mut words, refusal.variant.as_slice())?;
    for field in &refusal.fields {
        push(&mut words, field.as_slice())?;
    }
    Ok(words)
}

/// The words of a fault, as `pool Empty net`. Want of memory has none.
pub fn refusal<E: Refuses>(alloc: Global, fault: &E) -> Result<Vec<u8>, CaseFault> {
    match fault.refusal(alloc) {
        Ok(refusal) => words_of(alloc, &refusal),
        Err(_) => Err(CaseFault::Memory),
    }
}

/// A call gave a value, which is told so, or refused what was given. Generic, since to let either go is dear to prove.
pub fn outcome<T: Drop, E: Refuses + Drop, F>(
    alloc: Global,
    answer: Result<T, E>,
    tell: F,
) -> Result<Outcome, CaseFault>
where
    F: FnOnce(Global, &T) -> Result<Vec<u8>, CaseFault> + Drop,
    requires { F.IsAlwaysCallable tell }
{
    match answer {
        Ok(value) => Ok(Outcome::gives(tell(alloc, &value)?)),
        Err(fault) => Ok(Outcome::refuses(refusal(alloc, &fault)?)),
    }
}
