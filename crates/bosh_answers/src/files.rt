ghost use Rattle.std.specs.Prelude.{◌≡◌, ◌++◌, [], ◌∷◌, find, option_map, position, set, MatchOption, OnErr, OnOk};
ghost use Rattle.std.specs.Option.{option_copied};
ghost use Rattle.bosh_answers.specs.Files.{has_path};

use bosh_base::Text;
use std::alloc::{AllocFailed, Global};
use std::marker::Model;

/// A file that a block kept.
#[derive(Drop)]
pub struct KeptFile {
    pub path: Text,
    pub text: Text,
}

/// The files that the blocks of a session kept: of each path the one that was kept last.
#[derive(Drop)]
pub struct Files {
    files: Vec<KeptFile>,
}

impl Model for Files {
    ghost use Rattle.std.specs.Prelude.{List};
    ghost use Rattle.bosh_answers.specs.declared.files.KeptFile as kept;

    ghost Value = { List kept.KeptFile };

    ghost view = { λ files. files.files.items };
}

impl Files {
    pub fn new(alloc: Global) -> Files
        ensures { result ≡ [] }
    {
        Files {
            files: Vec::new(alloc),
        }
    }

    /// Keeps a file, in the place of the one of its path.
    pub fn put(&mut self, file: KeptFile) -> Result<(), AllocFailed<KeptFile>>
        ensures kept { OnOk result (MatchOption (position (has_path file.path) self.old)
            (self.new ≡ self.old ++ file ∷ []) (λ place. self.new ≡ set self.old place file)) }
        ensures refused { OnErr result (self.new ≡ self.old) }
    {
        match self.place(file.path.as_slice()) {
            Some(place) => {
                self.files[place] = file;
                Ok(())
            }
            None => self.files.push(file),
        }
    }

    fn place(&self, path: &[u8]) -> Option<usize>
        ensures { result ≡ position (has_path path.now) self.now }
    {
        self.files
            .iter()
            .position(|file| file.path.as_slice() == path)
    }

    /// The text of the file of a path.
    pub fn get(&self, path: &[u8]) -> Option<&Text>
        ensures { option_copied result ≡ option_map (λ file. file.text) (find (has_path path.now) self.now) }
    {
        let file = self.files.iter().find(|file| file.path.as_slice() == path)?;
        Some(&file.text)
    }

    /// All that were kept, in the order in which their paths came.
    pub fn as_slice(&self) -> &[KeptFile]
        ensures { result.now ≡ self.now }
    {
        self.files.as_slice()
    }
}
