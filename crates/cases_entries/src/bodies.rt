//! Bodies of entries, written in words with blanks between them.
use crate::part::{Part, find};
use cases_given::CaseFault;
use std::alloc::Global;
use std::str;

// The number of decimal digits.
fn number_of(digits: &[u8]) -> Result<u64, CaseFault> {
    match str::from_utf8(digits) {
        Ok(digits) => digits.parse::<u64>().map_err(|_| CaseFault::Form),
        Err(_) => Err(CaseFault::Form),
    }
}

fn push_number(body: &mut Vec<u8>, number: u64) -> Result<(), CaseFault> {
    body.extend_from_slice(&number.to_be_bytes())?;
    Ok(())
}

// The number of bytes, and the bytes.
fn push_text(body: &mut Vec<u8>, text: &[u8]) -> Result<(), CaseFault> {
    push_number(body, text.len() as u64)?;
    body.extend_from_slice(text)?;
    Ok(())
}

fn push_hex(alloc: Global, body: &mut Vec<u8>, digits: &[u8]) -> Result<(), CaseFault> {
    match hex::decode(alloc, digits) {
        Ok(bytes) => Ok(body.extend_from_slice(bytes.as_slice())?),
        Err(_) => Err(CaseFault::Form),
    }
}

fn push_repeated(
    alloc: Global,
    body: &mut Vec<u8>,
    digits: &[u8],
    times: &[u8],
) -> Result<(), CaseFault> {
    for _ in 0..number_of(times)? {
        push_hex(alloc, body, digits)?;
    }
    Ok(())
}

// A number as `#5`, a text as `'web`, a part as `$inst`, a byte again and again as `ab*32`, or hex.
fn push_word(
    alloc: Global,
    body: &mut Vec<u8>,
    word: &[u8],
    parts: &[Part],
) -> Result<(), CaseFault> {
    match word {
        [b'#', digits @ ..] => push_number(body, number_of(digits)?),
        [b'\'', text @ ..] => push_text(body, text),
        [b'$', name @ ..] => Ok(body.extend_from_slice(find(parts, name)?)?),
        [high, low, b'*', times @ ..] => push_repeated(alloc, body, &[*high, *low], times),
        _ => push_hex(alloc, body, word),
    }
}

/// The body that words write.
pub(crate) fn body_of(alloc: Global, words: &[u8], parts: &[Part]) -> Result<Vec<u8>, CaseFault> {
    let mut body = Vec::new(alloc);
    for word in words.split(|byte| *byte == b' ') {
        push_word(alloc, &mut body, word, parts)?;
    }
    Ok(body)
}
