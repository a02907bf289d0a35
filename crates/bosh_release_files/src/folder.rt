ghost use Rattle.std.specs.Prelude.{◌≡◌, IfErr, IfOk, OnOk};
ghost use Rattle.std.specs.Option.{option_map};
ghost use Rattle.bosh_release_files.specs.Files.{bytes_at, folder_after, folder_of_files, folders_below};
ghost use Rattle.bosh_release_files.specs.Sources.{with_name};
ghost use Rattle.bosh_release_files.specs.declared.fault.ReleaseFault.TheVariants.{Memory};

use crate::ReleaseFault;
use crate::fault::text_of;
use crate::path::{after, first_folder};
use bosh_base::{Seq, Text};
use std::alloc::Global;
use std::collections::{BTreeMap, BTreeSet};
use std::marker::Model;

/// A file of a release's folder.
#[derive(Drop)]
pub struct File {
    /// Relative to the folder, without a line feed.
    pub path: Text,
    pub bytes: Text,
}

/// The files of a release's folder by their paths. Of two files of one path the later one counts.
#[derive(Drop)]
pub struct Folder<'a> {
    files: BTreeMap<&'a [u8], &'a [u8]>,
}

impl<'a> Model for Folder<'a> {
    ghost use Rattle.std.specs.Prelude.{List, map};
    ghost use Rattle.bosh_release_files.specs.Files.{Entry};
    ghost use Rattle.bosh_release_files.specs.Sources.{entry_seen};

    ghost Value = { List Entry };

    ghost view = { λ folder. map entry_seen folder.files.entries };
}

impl<'a> Folder<'a> {
    pub fn of(alloc: Global, files: &'a [File]) -> Result<Self, ReleaseFault>
        ensures folder { IfOk result (λ folder. folder ≡ folder_of_files files.now) }
        ensures err { IfErr result (λ fault. fault ≡ Memory) }
    {
        let mut table = BTreeMap::new(alloc);
        for file in files {
            table.insert(file.path.as_slice(), file.bytes.as_slice())?;
        }
        Ok(Folder { files: table })
    }

    /// The bytes of the file of a path.
    pub fn bytes_at(&self, path: &[u8]) -> Option<&'a [u8]>
        ensures { option_map (λ bytes. bytes.now) result ≡ bytes_at self.now path.now }
    {
        self.files.get(path).copied()
    }
}

// The folder into which the path of a file leads below a front.
fn folder_after<'a>(front: &[u8], file: &'a File) -> Option<&'a [u8]>
    ensures { option_map (λ name. name.now) result ≡ folder_after front.now file.now }
{
    first_folder(after(front, file.path.as_slice())?)
}

// Adds a name, where there is one.
fn add_name(
    alloc: Global,
    name: Option<&[u8]>,
    names: &mut BTreeSet<Text>,
) -> Result<(), ReleaseFault>
    ensures added { OnOk result (names.new.keys ≡ with_name names.old.keys (option_map (λ name. name.now) name.entry)) }
    ensures err { IfErr result (λ fault. fault ≡ Memory) }
{
    match name {
        Some(name) => {
            names.insert(text_of(alloc, name)?)?;
            Ok(())
        }
        None => Ok(()),
    }
}

fn names_below(alloc: Global, front: &[u8], files: &[File]) -> Result<BTreeSet<Text>, ReleaseFault>
    ensures names { IfOk result (λ names. names.keys ≡ folders_below front.now files.now) }
    ensures err { IfErr result (λ fault. fault ≡ Memory) }
{
    let mut names = BTreeSet::new(alloc);
    for file in files {
        add_name(alloc, folder_after(front, file), &mut names)?;
    }
    Ok(names)
}

/// The names of the folders below a front, as `jobs/`, in order.
pub fn folders_below(alloc: Global, front: &[u8], files: &[File]) -> Result<Seq<Text>, ReleaseFault>
    ensures names { IfOk result (λ names. names ≡ folders_below front.now files.now) }
    ensures err { IfErr result (λ fault. fault ≡ Memory) }
{
    let mut names = Vec::new(alloc);
    for name in names_below(alloc, front, files)? {
        names.push(name)?;
    }
    Ok(Seq::from(names))
}
