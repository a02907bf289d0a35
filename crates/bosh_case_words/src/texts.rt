//! What cases write, of values.
use bosh_base::{DiskWant, Spec, Text};
use std::alloc::{AllocError, Global};
use std::str;

/// The characters of a text, or a question mark where it is none.
pub fn shown(text: &Text) -> &str {
    str::from_utf8(text.as_slice()).unwrap_or("?")
}

/// The word that a spec is written by.
pub fn spec_word(spec: &Spec) -> &str {
    match spec.files.get(0) {
        Some(file) => shown(&file.text),
        None => "?",
    }
}

/// A wanted disk, as cases write it.
pub fn want_text(alloc: Global, want: &DiskWant) -> Result<String, AllocError> {
    let size = want.size;
    match shown(&want.properties) {
        "null" => format!(in alloc; "{size}"),
        properties => format!(in alloc; "{size}/{properties}"),
    }
}

/// Numbers with commas between them, or `none`.
pub fn numbers_text(alloc: Global, numbers: &[u64]) -> Result<String, AllocError> {
    let [first, others @ ..] = numbers else {
        return String::from_str(alloc, "none");
    };
    let mut text = format!(in alloc; "{first}")?;
    for number in others {
        add_number(alloc, &mut text, *number)?;
    }
    Ok(text)
}

fn add_number(alloc: Global, text: &mut String, number: u64) -> Result<(), AllocError> {
    let more = format!(in alloc; ",{number}")?;
    text.push_str(more.as_str())
}
