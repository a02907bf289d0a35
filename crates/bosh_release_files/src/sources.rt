ghost use Rattle.std.specs.Prelude.{◌≡◌, ℕ, List, true, IfErr, IfOk, OnOk, map};
ghost use Rattle.std.specs.List.{list_any};
ghost use Rattle.std.specs.Option.{option_map};
ghost use Rattle.std.specs.Str.{bytes_eq};
ghost use Rattle.bosh_release_listing.specs.Parts.{stamp_view};
ghost use Rattle.bosh_release_files.specs.Answer.{IsAnswer, IsAnswerSeen, check_each};
ghost use Rattle.bosh_release_files.specs.Files.{digest_after, digests_below, files_below, stamped_by};
ghost use Rattle.bosh_release_files.specs.Pattern.{check_match, lies_in, matches, patterns, taken_files};
ghost use Rattle.bosh_release_files.specs.Sources.{AddsText, IsInOrder, digest_seen, has, path_of, with_file};
ghost use Rattle.bosh_release_files.specs.declared.fault.ReleaseFault.TheVariants.{Memory};

use crate::fault::no_match;
use crate::path::{after, folder_of};
use crate::pattern::read_patterns;
use crate::span::span_below;
use crate::taking::taken;
use crate::{File, Form, Pattern, ReleaseFault};
use bosh_base::{Digest, Seq, Text};
use bosh_release_listing::{Stamp, fingerprint};
use std::alloc::Global;
use std::collections::{BTreeMap, BTreeSet};
use std::marker::Model;

/// The files of which packages are made, by their paths below one folder, each with the digest of its bytes.
#[derive(Drop)]
pub struct Sources<'a> {
    files: Vec<Stamp<'a>>,
    paths: BTreeSet<&'a [u8]>,
    /// Those in which files lie.
    folders: BTreeSet<&'a [u8]>,
}

impl<'a> Model for Sources<'a> {
    ghost use Rattle.std.specs.Prelude.{List, map};
    ghost use Rattle.bosh_release_listing.specs.Listing.{Stamped};
    ghost use Rattle.bosh_release_listing.specs.Parts.{stamp_view};
    ghost use Rattle.bosh_release_files.specs.Sources.{IsIndexed};

    ghost Value = { List Stamped };

    ghost view = { λ sources. map stamp_view sources.files.items };

    ghost invariant = { λ sources. IsIndexed sources.files.items sources.paths sources.folders };
}

#[tactic(auto, using(crate::proofs::IndexLemmas::some_files))]
fn has_some(files: &[Stamp<'_>]) -> bool
    ensures { result ≡ list_any (λ _. true) files.now }
{
    match files {
        [] => false,
        [_, ..] => true,
    }
}

// Adds a file, where its path begins with a front.
fn add_file<'a>(
    front: &[u8],
    file: &'a File,
    table: &mut BTreeMap<&'a [u8], Digest>,
) -> Result<(), ReleaseFault>
    ensures added { OnOk result (map digest_seen table.new.entries
        ≡ with_file (map digest_seen table.old.entries) (digest_after front.now file.now)) }
    ensures err { IfErr result (λ fault. fault ≡ Memory) }
{
    match after(front, file.path.as_slice()) {
        Some(path) => {
            table.insert(path, fingerprint(file.bytes.as_slice()))?;
            Ok(())
        }
        None => Ok(()),
    }
}

fn digests_below<'a>(
    alloc: Global,
    front: &[u8],
    files: &'a [File],
) -> Result<BTreeMap<&'a [u8], Digest>, ReleaseFault>
    ensures table { IfOk result (λ table. map digest_seen table.entries ≡ digests_below front.now files.now) }
    ensures err { IfErr result (λ fault. fault ≡ Memory) }
{
    let mut table = BTreeMap::new(alloc);
    for file in files {
        add_file(front, file, &mut table)?;
    }
    Ok(table)
}

fn stamps_of<'a>(
    alloc: Global,
    table: BTreeMap<&'a [u8], Digest>,
) -> Result<Vec<Stamp<'a>>, ReleaseFault>
    ensures files { IfOk result (λ files. map stamp_view files.items
        ≡ map stamped_by (map digest_seen table.entry.entries)) }
    ensures err { IfErr result (λ fault. fault ≡ Memory) }
{
    let mut files = Vec::new(alloc);
    for (name, digest) in table {
        files.push(Stamp { name, digest })?;
    }
    Ok(files)
}

fn paths_of<'a>(alloc: Global, files: &[Stamp<'a>]) -> Result<BTreeSet<&'a [u8]>, ReleaseFault>
    ensures paths { IfOk result (λ paths. (q : List ℕ) → has paths q ≡ list_any
        (λ file. bytes_eq q (path_of file)) files.now) }
    ensures err { IfErr result (λ fault. fault ≡ Memory) }
{
    let mut paths = BTreeSet::new(alloc);
    for file in files {
        paths.insert(file.name)?;
    }
    Ok(paths)
}

/// Adds a text, where there is one.
pub(crate) fn add_text<'a>(
    text: Option<&'a [u8]>,
    texts: &mut BTreeSet<&'a [u8]>,
) -> Result<(), ReleaseFault>
    ensures added { OnOk result (AddsText texts.old texts.new (option_map (λ text. text.now) text.entry)) }
    ensures err { IfErr result (λ fault. fault ≡ Memory) }
{
    match text {
        Some(text) => {
            texts.insert(text)?;
            Ok(())
        }
        None => Ok(()),
    }
}

// The folders in which files lie.
fn folders_of<'a>(alloc: Global, files: &[Stamp<'a>]) -> Result<BTreeSet<&'a [u8]>, ReleaseFault>
    ensures folders { IfOk result (λ folders. (q : List ℕ) → has folders q ≡ list_any
        (λ file. lies_in q (path_of file)) files.now) }
    ensures err { IfErr result (λ fault. fault ≡ Memory) }
{
    let mut folders = BTreeSet::new(alloc);
    for file in files {
        add_text(folder_of(file.name), &mut folders)?;
    }
    Ok(folders)
}

fn indexed<'a>(alloc: Global, files: Vec<Stamp<'a>>) -> Result<Sources<'a>, ReleaseFault>
    requires { IsInOrder (map path_of files.items) }
    ensures sources { IfOk result (λ sources. sources ≡ map stamp_view files.entry.items) }
    ensures err { IfErr result (λ fault. fault ≡ Memory) }
{
    let paths = paths_of(alloc, &files)?;
    let folders = folders_of(alloc, &files)?;
    Ok(Sources {
        files,
        paths,
        folders,
    })
}

impl<'a> Sources<'a> {
    /// The files below a front, as `src/`.
    pub fn below(alloc: Global, front: &[u8], files: &'a [File]) -> Result<Self, ReleaseFault>
        ensures sources { IfOk result (λ sources. sources ≡ files_below front.now files.now) }
        ensures err { IfErr result (λ fault. fault ≡ Memory) }
    {
        let table = digests_below(alloc, front, files)?;
        indexed(alloc, stamps_of(alloc, table)?)
    }

    /// Whether some file is taken.
    pub(crate) fn matches(&self, form: &Form) -> bool
        ensures { result ≡ matches self.now form.now }
    {
        match form {
            Form::Every => has_some(&self.files),
            Form::Below(front) => {
                let span = span_below(&self.files, front.as_slice());
                span.start < span.end
            }
            Form::In(folder) => self.folders.contains(folder.as_slice()),
            Form::Exact(text) => self.paths.contains(text.as_slice()),
        }
    }

    fn check_match(&self, alloc: Global, pattern: &Pattern) -> Result<(), ReleaseFault>
        ensures { IsAnswerSeen (λ _. true) result (check_match self.now pattern.now) }
    {
        if self.matches(&pattern.form) {
            Ok(())
        } else {
            no_match(alloc, pattern.text.as_slice())
        }
    }

    fn check_matches(&self, alloc: Global, patterns: &[Pattern]) -> Result<(), ReleaseFault>
        ensures { IsAnswerSeen (λ _. true) result (check_each (check_match self.now) patterns.now) }
    {
        for pattern in patterns {
            self.check_match(alloc, pattern)?;
        }
        Ok(())
    }

    /// What texts are as patterns, each of which takes some file.
    pub fn patterns(&self, alloc: Global, texts: &[Text]) -> Result<Seq<Pattern>, ReleaseFault>
        ensures { IsAnswer result (patterns self.now texts.now) }
    {
        let patterns = read_patterns(alloc, texts)?;
        self.check_matches(alloc, patterns.as_slice())?;
        Ok(patterns)
    }

    /// The files that some of the patterns take, each once.
    pub fn taken(&self, alloc: Global, patterns: &[Pattern]) -> Result<Vec<Stamp<'a>>, ReleaseFault>
        ensures files { IfOk result (λ files. map stamp_view files.items ≡ taken_files self.now patterns.now) }
        ensures err { IfErr result (λ fault. fault ≡ Memory) }
    {
        taken(alloc, &self.files, patterns)
    }
}
