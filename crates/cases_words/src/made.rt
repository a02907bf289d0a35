//! What machines and disks are made from, and what is applied to machines. Of each, one text tells it apart.
use crate::words::{Worded, number_of, text_of, word};
use bosh_base::{DiskWant, Make, Name, Placed, Seq, Spec};
use cases_given::{CaseFault, both};
use std::alloc::Global;
use std::str::SplitWhitespace;

fn zone(alloc: Global) -> Result<Name, CaseFault> {
    Ok(Name::of(alloc, b"z1")?)
}

fn make(alloc: Global, word: &str) -> Result<Make, CaseFault> {
    let stemcell = both(text_of(alloc, "jammy"), text_of(alloc, "1"));
    let ((os, version), (az, vm)) = both(stemcell, both(zone(alloc), text_of(alloc, word)))?;
    Ok(Make {
        os,
        version,
        az,
        vm,
        nets: Seq::new(alloc),
    })
}

/// A word, which stands for its cloud properties.
impl Worded for Make {
    fn of(alloc: Global, words: &mut SplitWhitespace<'_>) -> Result<Self, CaseFault> {
        make(alloc, word(words)?)
    }
}

fn placed(alloc: Global, word: &str) -> Result<Placed, CaseFault> {
    let (path, text) = both(text_of(alloc, "jobs/j/f"), text_of(alloc, word))?;
    Ok(Placed { path, text })
}

fn files(alloc: Global, word: &str) -> Result<Seq<Placed>, CaseFault> {
    let mut files = Vec::new(alloc);
    files.push(placed(alloc, word)?)?;
    Ok(Seq::from(files))
}

fn spec(alloc: Global, word: &str) -> Result<Spec, CaseFault> {
    let files = files(alloc, word)?;
    Ok(Spec {
        jobs: Seq::new(alloc),
        packages: Seq::new(alloc),
        files,
    })
}

/// A word, which stands for the text of its one file.
impl Worded for Spec {
    fn of(alloc: Global, words: &mut SplitWhitespace<'_>) -> Result<Self, CaseFault> {
        spec(alloc, word(words)?)
    }
}

/// A spec, or `none`.
pub fn spec_if_any(alloc: Global, word: &str) -> Result<Option<Spec>, CaseFault> {
    match word {
        "none" => Ok(None),
        _ => Ok(Some(spec(alloc, word)?)),
    }
}

fn size_of(word: &str) -> Result<u32, CaseFault> {
    match u32::try_from(number_of(word)?) {
        Ok(size) => Ok(size),
        Err(_) => Err(CaseFault::Form),
    }
}

fn disk_want(alloc: Global, word: &str) -> Result<DiskWant, CaseFault> {
    let (size, properties) = word.split_once('/').unwrap_or((word, "null"));
    let size = size_of(size)?;
    let properties = text_of(alloc, properties)?;
    Ok(DiskWant { size, properties })
}

/// As `10`, its size, or as `10/ssd`, with its properties.
impl Worded for DiskWant {
    fn of(alloc: Global, words: &mut SplitWhitespace<'_>) -> Result<Self, CaseFault> {
        disk_want(alloc, word(words)?)
    }
}
