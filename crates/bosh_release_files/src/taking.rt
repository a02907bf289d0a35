//! The files that patterns take.
ghost use Rattle.std.specs.Prelude.{◌≡◌, ◌∷◌, ◌++◌, ◌||◌, ℕ, List, [], IfErr, IfOk, OnOk, length, map, if◌then◌else◌};
ghost use Rattle.std.specs.List.{list_any};
ghost use Rattle.std.specs.Option.{option_map};
ghost use Rattle.bosh_release_listing.specs.Parts.{stamp_view};
ghost use Rattle.bosh_release_files.specs.Pattern.{is_that, taken_files};
ghost use Rattle.bosh_release_files.specs.Sources.{AddsSpan, AreReached, IsInOrder, IsReach, exact_text, folder_text, has, lies_in_some, path_of};
ghost use Rattle.bosh_release_files.specs.declared.fault.ReleaseFault.TheVariants.{Memory};

use crate::path::folder_of;
use crate::sources::add_text;
use crate::span::{Span, span_of};
use crate::{Form, Pattern, ReleaseFault};
use bosh_release_listing::Stamp;
use std::alloc::Global;
use std::collections::BTreeSet;

fn exact_text(form: &Form) -> Option<&[u8]>
    ensures { option_map (λ text. text.now) result ≡ exact_text form.now }
{
    match form {
        Form::Exact(text) => Some(text.as_slice()),
        Form::Every | Form::Below(_) | Form::In(_) => None,
    }
}

fn folder_text(form: &Form) -> Option<&[u8]>
    ensures { option_map (λ text. text.now) result ≡ folder_text form.now }
{
    match form {
        Form::In(folder) => Some(folder.as_slice()),
        Form::Every | Form::Below(_) | Form::Exact(_) => None,
    }
}

// The paths that are written out.
fn exact_texts<'a>(
    alloc: Global,
    patterns: &'a [Pattern],
) -> Result<BTreeSet<&'a [u8]>, ReleaseFault>
    ensures texts { IfOk result (λ texts. (q : List ℕ) → has texts q ≡ list_any
        (λ pattern. is_that q (exact_text pattern.form)) patterns.now) }
    ensures err { IfErr result (λ fault. fault ≡ Memory) }
{
    let mut texts = BTreeSet::new(alloc);
    for pattern in patterns {
        add_text(exact_text(&pattern.form), &mut texts)?;
    }
    Ok(texts)
}

// The folders whose files are taken.
fn folder_texts<'a>(
    alloc: Global,
    patterns: &'a [Pattern],
) -> Result<BTreeSet<&'a [u8]>, ReleaseFault>
    ensures texts { IfOk result (λ texts. (q : List ℕ) → has texts q ≡ list_any
        (λ pattern. is_that q (folder_text pattern.form)) patterns.now) }
    ensures err { IfErr result (λ fault. fault ≡ Memory) }
{
    let mut texts = BTreeSet::new(alloc);
    for pattern in patterns {
        add_text(folder_text(&pattern.form), &mut texts)?;
    }
    Ok(texts)
}

// Lets the places of a span be reached.
fn add_span(reach: &mut Vec<usize>, span: Span)
    ensures { AddsSpan span reach.old.items reach.new.items }
{
    if span.start < reach.len() {
        reach[span.start] = reach[span.start].max(span.end);
    }
}

// How far patterns reach that take files beside one another, at the first place of each.
fn reach_of(
    alloc: Global,
    files: &[Stamp<'_>],
    patterns: &[Pattern],
) -> Result<Vec<usize>, ReleaseFault>
    requires { IsInOrder (map path_of files.now) }
    ensures reach { IfOk result (λ reach. IsReach files.now patterns.now reach.items) }
    ensures err { IfErr result (λ fault. fault ≡ Memory) }
{
    let mut reach = vec![in alloc; 0usize; files.len()]?;
    for pattern in patterns {
        add_span(&mut reach, span_of(files, &pattern.form));
    }
    Ok(reach)
}

fn reached(alloc: Global, reach: &[usize]) -> Result<Vec<bool>, ReleaseFault>
    ensures reached { IfOk result (λ reached. AreReached reach.now reached.items) }
    ensures err { IfErr result (λ fault. fault ≡ Memory) }
{
    let mut reached = Vec::new(alloc);
    let mut far = 0usize;
    for (place, end) in reach.iter().enumerate() {
        far = far.max(*end);
        reached.push(place < far)?;
    }
    Ok(reached)
}

fn lies_in_some(folders: &BTreeSet<&[u8]>, path: &[u8]) -> bool
    ensures { result ≡ lies_in_some folders.now path.now }
{
    match folder_of(path) {
        Some(folder) => folders.contains(folder),
        None => false,
    }
}

fn is_taken(reached: bool, texts: &BTreeSet<&[u8]>, folders: &BTreeSet<&[u8]>, path: &[u8]) -> bool
    ensures { result ≡ (reached || (has texts.now path.now || lies_in_some folders.now path.now)) }
{
    reached || texts.contains(path) || lies_in_some(folders, path)
}

fn add_if<'a>(test: bool, file: Stamp<'a>, files: &mut Vec<Stamp<'a>>) -> Result<(), ReleaseFault>
    ensures added { OnOk result (map stamp_view files.new.items
        ≡ map stamp_view files.old.items ++ (if test then stamp_view file.entry ∷ [] else [])) }
    ensures err { IfErr result (λ fault. fault ≡ Memory) }
{
    if !test {
        return Ok(());
    }
    files.push(file)?;
    Ok(())
}

/// The files that some pattern takes, in their order.
// Dear to prove: what is looked up in is alive while the files are chosen.
pub(crate) fn taken<'a>(
    alloc: Global,
    files: &[Stamp<'a>],
    patterns: &[Pattern],
) -> Result<Vec<Stamp<'a>>, ReleaseFault>
    requires { IsInOrder (map path_of files.now) }
    ensures files { IfOk result (λ chosen. map stamp_view chosen.items ≡ taken_files (map stamp_view files.now) patterns.now) }
    ensures err { IfErr result (λ fault. fault ≡ Memory) }
{
    let texts = exact_texts(alloc, patterns)?;
    let folders = folder_texts(alloc, patterns)?;
    let reached = reached(alloc, &reach_of(alloc, files, patterns)?)?;
    let mut chosen = Vec::new(alloc);
    for (place, file) in files.iter().enumerate() {
        let test = is_taken(reached[place], &texts, &folders, file.name);
        add_if(test, *file, &mut chosen)?;
    }
    Ok(chosen)
}
