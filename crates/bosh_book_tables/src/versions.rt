//! Other lists of entries than a book's, and which of their entries may stand.
use crate::store::Store;
use bosh_base::{Copyable, Entry};
use bosh_book::Book;
use bosh_case_words::number_of;
use bosh_cases::{CaseFault, characters};
use bosh_claim::is_allowed;
use bosh_drops::after;
use bosh_entry_words::entry;
use bosh_fold::apply;
use bosh_records::Records;
use bosh_yaml::Node;
use std::alloc::Global;

/// Whether an entry may stand after those that the records stand for.
pub(crate) fn may_stand(
    alloc: Global,
    records: &Records,
    entry: &Entry,
) -> Result<bool, CaseFault> {
    match is_allowed(alloc, records, entry) {
        Ok(yes) => Ok(yes),
        Err(_) => Err(CaseFault::Memory),
    }
}

fn take_in(records: &mut Records, entry: &Entry) -> Result<(), CaseFault> {
    match apply(records, entry) {
        Ok(()) => Ok(()),
        Err(_) => Err(CaseFault::Memory),
    }
}

// The number of the first entry that may not stand after those before it, counted from 1, where the others are taken in.
fn refused_over(
    alloc: Global,
    records: &mut Records,
    entries: &[Entry],
) -> Result<Option<u64>, CaseFault> {
    let mut number = 0u64;
    for entry in entries {
        number = number.saturating_add(1);
        if !may_stand(alloc, records, entry)? {
            return Ok(Some(number));
        }
        take_in(records, entry)?;
    }
    Ok(None)
}

/// The number of the first entry that may not stand after those before it, counted from 1.
pub(crate) fn first_refused(alloc: Global, entries: &[Entry]) -> Result<Option<u64>, CaseFault> {
    let mut records = Records::empty(alloc);
    let refused = refused_over(alloc, &mut records, entries);
    after(records, refused)
}

fn push<T: Drop>(list: &mut Vec<T>, item: Result<T, CaseFault>) -> Result<(), CaseFault> {
    list.push(item?)?;
    Ok(())
}

fn copied<T: Copyable>(alloc: Global, item: &T) -> Result<T, CaseFault> {
    Ok(item.copy(alloc)?)
}

// As `1-12`, or as `24`: the numbers of the first and the last one.
fn run_of(text: &str) -> Result<(u64, u64), CaseFault> {
    let (first, last) = text.split_once('-').unwrap_or((text, text));
    Ok((number_of(first)?, number_of(last)?))
}

// Adds the entries of a run, counted from 1.
fn push_run(
    alloc: Global,
    version: &mut Vec<Entry>,
    entries: &[Entry],
    run: (u64, u64),
) -> Result<(), CaseFault> {
    if run.0 < 1 || run.1 < run.0 || run.1 > entries.len() as u64 {
        return Err(CaseFault::Form);
    }
    for entry in &entries[run.0 as usize - 1..run.1 as usize] {
        push(version, copied(alloc, entry))?;
    }
    Ok(())
}

// Entries of the book by their numbers, or one in words.
fn push_part(
    alloc: Global,
    book: &Book<Store>,
    version: &mut Vec<Entry>,
    text: &str,
) -> Result<(), CaseFault> {
    match text.as_bytes().first() {
        Some(first) if first.is_ascii_digit() => {
            push_run(alloc, version, book.entries(), run_of(text)?)
        }
        _ => push(version, entry(alloc, book.records(), book.entries(), text)),
    }
}

fn push_parts(
    alloc: Global,
    book: &Book<Store>,
    version: &mut Vec<Entry>,
    parts: &[Node],
) -> Result<(), CaseFault> {
    for part in parts {
        match part {
            Node::Text(text) => push_part(alloc, book, version, characters(text)?)?,
            _ => return Err(CaseFault::Form),
        }
    }
    Ok(())
}

fn refused_after(
    alloc: Global,
    version: Vec<Entry>,
    made: Result<(), CaseFault>,
) -> Result<Option<u64>, CaseFault> {
    let refused = match made {
        Ok(()) => first_refused(alloc, version.as_slice()),
        Err(fault) => Err(fault),
    };
    after(version, refused)
}

/// The number of the first entry that may not stand, in a list of a book's entries by their numbers and of others in
/// words, as `["1-5", "Begin 2 task 1 worker 0 dep/web/0 start 1"]`.
pub(crate) fn refused_in(
    alloc: Global,
    book: &Book<Store>,
    parts: &[Node],
) -> Result<Option<u64>, CaseFault> {
    let mut version = Vec::new(alloc);
    let made = push_parts(alloc, book, &mut version, parts);
    refused_after(alloc, version, made)
}
