//! What is done to a keeper.
use crate::bodies::{bodies_of, body_of, is_body_of};
use crate::fault::WorkFault;
use bosh_ports::{KeepFault, Keeper};
use std::alloc::Global;

/// What is done to a file.
#[derive(Clone, Copy)]
pub(crate) enum Work {
    Append,
    Each,
    Replace,
    Load,
    Count,
}

/// The work of a word.
pub(crate) fn work_of(word: &str) -> Option<Work> {
    match word {
        "append" => Some(Work::Append),
        "each" => Some(Work::Each),
        "replace" => Some(Work::Replace),
        "load" => Some(Work::Load),
        "count" => Some(Work::Count),
        _ => None,
    }
}

/// How many bodies a keeper has, where it is whole.
fn count_in<K: Keeper>(keeper: &K) -> Result<u64, KeepFault> {
    if keeper.broken() {
        return Err(KeepFault::Broken);
    }
    Ok(keeper.len())
}

/// Appends the body of the next place, and answers how many there are now.
fn append_next<K: Keeper>(alloc: Global, keeper: &mut K) -> Result<u64, KeepFault> {
    let place = count_in(keeper)?;
    let body = body_of(alloc, place)?;
    keeper.append(&body)?;
    count_in(keeper)
}

/// Appends the bodies of so many places more.
pub(crate) fn append_all<K: Keeper>(
    alloc: Global,
    keeper: &mut K,
    count: u64,
) -> Result<(), KeepFault> {
    for _ in 0..count {
        append_next(alloc, keeper)?;
    }
    Ok(())
}

/// Appends the bodies of so many places more, and prints how many there are each time that one was answered.
pub(crate) fn append_each<K: Keeper>(
    rt: &impl Print,
    alloc: Global,
    keeper: &mut K,
    count: u64,
) -> Result<(), WorkFault> {
    for _ in 0..count {
        let there = append_next(alloc, keeper)?;
        if println!(rt; "{there}").is_err() {
            return Err(WorkFault::Output);
        }
    }
    Ok(())
}

/// Puts so many bodies in the place of all.
pub(crate) fn replace_all<K: Keeper>(
    alloc: Global,
    keeper: &mut K,
    count: u64,
) -> Result<(), KeepFault> {
    let bodies = bodies_of(alloc, count)?;
    keeper.replace(&bodies)
}

/// Looks whether the body at a place is what was written there.
fn compare_at<K: Keeper>(alloc: Global, keeper: &mut K, place: u64) -> Result<(), WorkFault> {
    if keeper.broken() {
        return Err(WorkFault::Kept(KeepFault::Broken));
    }
    if keeper.len() <= place {
        return Err(WorkFault::Changed(place));
    }
    let body = keeper.read(alloc, place)?;
    if is_body_of(alloc, &body, place)? {
        Ok(())
    } else {
        Err(WorkFault::Changed(place))
    }
}

/// How many bodies there are, each of which is what was written at its place.
pub(crate) fn count_written<K: Keeper>(alloc: Global, keeper: &mut K) -> Result<u64, WorkFault> {
    let count = count_in(keeper)?;
    for place in 0..count {
        compare_at(alloc, keeper, place)?;
    }
    Ok(count)
}
