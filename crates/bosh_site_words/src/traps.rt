//! Traps in words.
ghost use Rattle.std.specs.Prelude.{◌↔◌, ◌≤◌, IsTrue};
ghost use Rattle.bosh_world.specs.Arms.{count_of};

use bosh_base::{Method, Owner};
use bosh_book_words::{next, written};
use bosh_case_texts::{push_count, push_owner};
use bosh_case_words::{number, word};
use bosh_cases::{CaseFault, both, push_parts};
use bosh_fates::Fate;
use bosh_ports::Rig;
use bosh_world::{Armed, Trap};
use std::alloc::{AllocError, Global};
use std::str::SplitWhitespace;

// An owner, or `*` for any.
fn whose(alloc: Global, words: &mut SplitWhitespace<'_>) -> Result<Option<Owner>, CaseFault> {
    match word(words)? {
        "*" => Ok(None),
        owner => Ok(Some(written(alloc, owner)?)),
    }
}

// As `create_vm dep/web/0 1`: a method, whose call it is, and which one.
fn which(
    alloc: Global,
    words: &mut SplitWhitespace<'_>,
) -> Result<(Method, (Option<Owner>, u64)), CaseFault> {
    let method = next(alloc, words)?;
    let owner = whose(alloc, words);
    Ok((method, both(owner, number(words))?))
}

// As `lose start dep/web/1 1` or `late create_vm * 2`.
fn fail(alloc: Global, words: &mut SplitWhitespace<'_>) -> Result<Trap, CaseFault> {
    let fate = match word(words)? {
        "lose" => Fate::Lose,
        "late" => Fate::Late,
        _ => return Err(CaseFault::Form),
    };
    let (method, (owner, k)) = which(alloc, words)?;
    Ok(Trap::Fail {
        method,
        owner,
        k,
        fate,
    })
}

// As `lose 3`, `late 3`, `before 3` or `after 3`.
fn store(words: &mut SplitWhitespace<'_>) -> Result<Trap, CaseFault> {
    let how = match word(words)? {
        "lose" => Rig::FailLost,
        "late" => Rig::FailKept,
        "before" => Rig::StopBefore,
        "after" => Rig::StopAfter,
        _ => return Err(CaseFault::Form),
    };
    let k = number(words)?;
    Ok(Trap::Store { k, how })
}

// The one of two words that stands next, which is said by whether it is the first.
fn is_first(words: &mut SplitWhitespace<'_>, first: &str, second: &str) -> Result<bool, CaseFault> {
    let word = word(words)?;
    if word == first {
        Ok(true)
    } else if word == second {
        Ok(false)
    } else {
        Err(CaseFault::Form)
    }
}

// What a stop says of its call.
type Stopped = (bool, (Method, (Option<Owner>, u64)));

fn stopped(alloc: Global, words: &mut SplitWhitespace<'_>) -> Result<Stopped, CaseFault> {
    let before = is_first(words, "before", "after")?;
    Ok((before, which(alloc, words)?))
}

// As `before create_vm dep/web/0 1 none` or `after start * 2 all`.
fn stop(alloc: Global, words: &mut SplitWhitespace<'_>) -> Result<Trap, CaseFault> {
    let stopped = stopped(alloc, words);
    let ((before, (method, (owner, k))), all) = both(stopped, is_first(words, "all", "none"))?;
    Ok(Trap::Stop {
        before,
        method,
        owner,
        k,
        all,
    })
}

/// The trap that words write after a verb: a call that is to fail, as `fail lose start dep/web/1 1`; an append that is, as
/// `store late 3`; or a stop in a call, as `stop_in before create_vm * 1 none`. Nothing where it is no verb of a trap.
pub fn trap(
    alloc: Global,
    verb: &str,
    words: &mut SplitWhitespace<'_>,
) -> Result<Option<Trap>, CaseFault> {
    let trap = match verb {
        "fail" => fail(alloc, words),
        "store" => store(words),
        "stop_in" => stop(alloc, words),
        _ => return Ok(None),
    };
    Ok(Some(trap?))
}

/// Whether the time that a trap waits for is counted from 1.
pub fn is_counted(trap: &Trap) -> bool
    ensures { IsTrue result ↔ 1 ≤ count_of trap.now }
{
    match trap {
        Trap::Fail { k, .. } | Trap::Store { k, .. } | Trap::Stop { k, .. } => 1 <= *k,
    }
}

fn side_word(before: bool) -> &'static [u8] {
    match before {
        true => b"before ",
        false => b"after ",
    }
}

fn others_word(all: bool) -> &'static [u8] {
    match all {
        true => b" all",
        false => b" none",
    }
}

fn push_whose(text: &mut Vec<u8>, owner: Option<&Owner>) -> Result<(), AllocError> {
    match owner {
        Some(owner) => push_owner(text, b" ", owner),
        None => push_parts(text, &[b" *"]),
    }
}

// Of the other traps none is kept by a site.
fn push_trap(text: &mut Vec<u8>, trap: &Trap) -> Result<(), AllocError> {
    match trap {
        Trap::Stop {
            before,
            method,
            owner,
            k,
            all,
        } => {
            push_parts(text, &[side_word(*before), method.name().as_bytes()])?;
            push_whose(text, owner.as_ref())?;
            push_count(text, b" ", *k)?;
            push_parts(text, &[others_word(*all)])
        }
        _ => push_parts(text, &[b"other"]),
    }
}

/// Adds the traps that wait, as `before create_vm dep/web/0 2 none seen 1`, or `none armed`.
pub fn push_armed(text: &mut Vec<u8>, traps: &[Armed]) -> Result<(), AllocError> {
    if traps.is_empty() {
        return push_parts(text, &[b"none armed"]);
    }
    push_parts(text, &[b"armed"])?;
    for armed in traps {
        text.extend_from_slice(b" ")?;
        push_trap(text, &armed.trap)?;
        push_count(text, b" seen ", armed.seen)?;
    }
    Ok(())
}
