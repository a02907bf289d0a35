//! What calls answer.
use crate::made::spec_if_any;
use crate::words::{Worded, number, number_of, numbers, word};
use bosh_base::{Answer, Digest};
use cases_given::CaseFault;
use std::alloc::Global;
use std::str::SplitWhitespace;

fn found(words: &mut SplitWhitespace<'_>) -> Result<Answer, CaseFault> {
    match word(words)? {
        "none" => Ok(Answer::Found(None)),
        word => Ok(Answer::Found(Some(number_of(word)?))),
    }
}

// Whether it runs, and whether it is drained.
fn flags(words: &mut SplitWhitespace<'_>) -> Result<(bool, bool), CaseFault> {
    match (words.next(), words.next()) {
        (Some("running"), Some("drained")) => Ok((true, true)),
        (Some("running"), None) => Ok((true, false)),
        (Some("drained"), None) => Ok((false, true)),
        (None, _) => Ok((false, false)),
        _ => Err(CaseFault::Form),
    }
}

fn facts(alloc: Global, words: &mut SplitWhitespace<'_>) -> Result<Answer, CaseFault> {
    let name = word(words)?;
    let (running, drained) = flags(words)?;
    let spec = spec_if_any(alloc, name)?;
    Ok(Answer::Facts {
        spec,
        running,
        drained,
    })
}

fn disks(alloc: Global, words: &mut SplitWhitespace<'_>) -> Result<Answer, CaseFault> {
    let disks = numbers(alloc, word(words)?)?;
    Ok(Answer::Disks(disks))
}

fn created(words: &mut SplitWhitespace<'_>) -> Result<Answer, CaseFault> {
    let number = number(words)?;
    Ok(Answer::Cid(number))
}

// An answer that is one word.
fn plain(word: &str) -> Result<Answer, CaseFault> {
    match word {
        "done" => Ok(Answer::Done),
        "yes" => Ok(Answer::Yes),
        "no" => Ok(Answer::No),
        "gone" => Ok(Answer::Gone),
        "failed" => Ok(Answer::Failed),
        "built" => Ok(Answer::Built(Digest([0; 32]))),
        _ => Err(CaseFault::Form),
    }
}

/// `done`, `cid 5`, `found 5`, `found none`, `yes`, `no`, `disks 2,3`, `facts s running drained`, `built`, `gone` or
/// `failed`.
impl Worded for Answer {
    fn of(alloc: Global, words: &mut SplitWhitespace<'_>) -> Result<Self, CaseFault> {
        match word(words)? {
            "cid" => created(words),
            "found" => found(words),
            "facts" => facts(alloc, words),
            "disks" => disks(alloc, words),
            word => plain(word),
        }
    }
}
