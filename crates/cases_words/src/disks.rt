//! The disks of a row.
use crate::words::{Worded, number, number_after, word};
use bosh_base::{DiskRow, DiskWant, Role};
use cases_given::{CaseFault, both};
use std::alloc::Global;
use std::str::SplitWhitespace;

fn role(word: &str) -> Result<Role, CaseFault> {
    match word {
        "active" => Ok(Role::Active),
        "new" => Ok(Role::New),
        "old" => Ok(Role::Old),
        _ => Err(CaseFault::Form),
    }
}

// Whether it is attached, and whether it is mounted.
fn place(words: &mut SplitWhitespace<'_>) -> Result<(bool, bool), CaseFault> {
    match (words.next(), words.next()) {
        (None, _) => Ok((false, false)),
        (Some("attached"), None) => Ok((true, false)),
        (Some("mounted"), None) => Ok((true, true)),
        _ => Err(CaseFault::Form),
    }
}

// Its number, and the call that made it.
fn numbers(words: &mut SplitWhitespace<'_>) -> Result<(u64, u64), CaseFault> {
    let disk = number(words)?;
    Ok((disk, number_after(words, "of")?))
}

fn role_and_place(words: &mut SplitWhitespace<'_>) -> Result<(Role, (bool, bool)), CaseFault> {
    let role = role(word(words)?)?;
    Ok((role, place(words)?))
}

/// As `2 of 5 10 active attached`: its number, the call that made it, its size and properties, and its role; an
/// attached disk ends in `attached`, and one that is mounted too in `mounted`.
impl Worded for DiskRow {
    fn of(alloc: Global, words: &mut SplitWhitespace<'_>) -> Result<Self, CaseFault> {
        let (disk, tag) = numbers(words)?;
        let want = DiskWant::of(alloc, words);
        let (want, (role, place)) = both(want, role_and_place(words))?;
        Ok(DiskRow {
            disk,
            tag,
            want,
            role,
            attached: place.0,
            mounted: place.1,
        })
    }
}
