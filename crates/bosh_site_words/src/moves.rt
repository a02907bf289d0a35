//! Moves in words.
use bosh_base::{Cause, Did, Entry, Move, Reply, Said, Stop, Wrote};
use bosh_book_texts::{push_answer, push_entry, push_loss};
use bosh_case_texts::{push_count, push_inst};
use bosh_cases::{CaseFault, push_parts};
use bosh_report::say;
use std::alloc::{AllocError, Global};

// As `Note TaskDone 1`.
fn push_note(text: &mut Vec<u8>, entry: &Entry) -> Result<(), AllocError> {
    push_parts(text, &[b"Note "])?;
    push_entry(text, entry)
}

fn effect_word(effect: bool) -> &'static [u8] {
    match effect {
        true => b" effect ",
        false => b" no effect ",
    }
}

// As `Did 1 effect cid 1`.
fn push_did(text: &mut Vec<u8>, did: &Did) -> Result<(), AllocError> {
    push_count(text, b"Did ", did.n)?;
    push_parts(text, &[effect_word(did.effect)])?;
    push_answer(text, &did.answer)
}

// As `Wrote dep/web/0 hello`.
fn push_wrote(text: &mut Vec<u8>, wrote: &Wrote) -> Result<(), AllocError> {
    push_inst(text, b"Wrote ", &wrote.inst)?;
    push_parts(text, &[b" ", wrote.text.as_slice()])
}

fn halt_words(cause: Cause) -> &'static [u8] {
    match cause {
        Cause::Stop => b"Halt Stop",
        Cause::Store => b"Halt Store",
        Cause::CloudStore => b"Halt CloudStore",
    }
}

// Adds a word, and an entry in brackets, or `-` where there is none.
fn push_if_any(text: &mut Vec<u8>, word: &[u8], entry: Option<&Entry>) -> Result<(), AllocError> {
    let Some(entry) = entry else {
        return push_parts(text, &[word, b"-"]);
    };
    push_parts(text, &[word, b"("])?;
    push_entry(text, entry)?;
    push_parts(text, &[b")"])
}

fn push_took(text: &mut Vec<u8>, took: &[u64]) -> Result<(), AllocError> {
    push_parts(text, &[b" took"])?;
    if took.is_empty() {
        return push_parts(text, &[b" -"]);
    }
    for n in took {
        push_count(text, b" ", *n)?;
    }
    Ok(())
}

// As `Stop kept (TaskDone 1) took 1 2 wrote -`.
fn push_stop(text: &mut Vec<u8>, stop: &Stop) -> Result<(), AllocError> {
    push_if_any(text, b"Stop kept ", stop.kept.as_ref())?;
    push_took(text, stop.took.as_slice())?;
    push_if_any(text, b" wrote ", stop.wrote.as_ref())
}

// The text of a reply, without the end of its last line.
fn push_reply(alloc: Global, text: &mut Vec<u8>, reply: &Reply) -> Result<(), CaseFault> {
    let Ok(reply) = say(alloc, reply) else {
        return Err(CaseFault::Memory);
    };
    let lines = reply.as_slice();
    Ok(push_parts(text, &[lines.strip_suffix(b"\n").unwrap_or(lines)])?)
}

// As `Said 3 task 1 done`.
fn push_said(alloc: Global, text: &mut Vec<u8>, said: &Said) -> Result<(), CaseFault> {
    push_count(text, b"Said ", u64::from(said.command))?;
    push_parts(text, &[b" "])?;
    push_reply(alloc, text, &said.reply)
}

fn push_plain(text: &mut Vec<u8>, step: &Move) -> Result<(), AllocError> {
    match step {
        Move::Note(entry) => push_note(text, entry),
        Move::Did(did) => push_did(text, did),
        Move::Wrote(wrote) => push_wrote(text, wrote),
        Move::Halt(cause) => push_parts(text, &[halt_words(*cause)]),
        Move::Stop(stop) => push_stop(text, stop),
        Move::Lost(loss) => push_loss(text, loss),
        Move::Said(_) => Ok(()),
    }
}

fn push_move(alloc: Global, text: &mut Vec<u8>, step: &Move) -> Result<(), CaseFault> {
    match step {
        Move::Said(said) => push_said(alloc, text, said),
        _ => Ok(push_plain(text, step)?),
    }
}

/// Adds moves, each after a bar.
pub fn push_moves(alloc: Global, text: &mut Vec<u8>, moves: &[Move]) -> Result<(), CaseFault> {
    for step in moves {
        push_parts(text, &[b" | "])?;
        push_move(alloc, text, step)?;
    }
    Ok(())
}
