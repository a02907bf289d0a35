ghost use Rattle.std.specs.Prelude.{◌≡◌};

use crate::coded::Coded;
use crate::fault::EntryFault;
use crate::format::Format;
use crate::source::Source;
use bosh_base::{Key, KeyWork};
use std::alloc::Global;

impl Coded for Key {
    ghost use Rattle.bosh_entry.specs.Key.{key, is_key, key_at};

    ghost spelling = { λ _. key };

    ghost fits = { λ _. is_key };

    ghost reading = { λ _. key_at };

    #[tactic(auto, unfolding(crate::specs::Key::key, crate::specs::Key::is_key))]
    fn write(&self, out: &mut Vec<u8>) -> Result<(), EntryFault> {
        self.fingerprint.write(out)?;
        self.os.write(out)?;
        self.version.write(out)
    }

    #[tactic(auto, using(crate::proofs::StructLemmas::key_parts))]
    fn read(alloc: Global, format: Format, from: &mut Source) -> Result<Self, EntryFault> {
        let fields = Coded::read(alloc, format, from)?;
        let ((fingerprint, os), version) = fields;
        Ok(Key {
            fingerprint,
            os,
            version,
        })
    }
}

impl Coded for KeyWork {
    ghost use Rattle.bosh_entry.specs.Key.{key_work, is_key_work, key_work_at};

    ghost spelling = { λ _. key_work };

    ghost fits = { λ _. is_key_work };

    ghost reading = { λ _. key_work_at };

    #[tactic(auto, unfolding(crate::specs::Key::key_work, crate::specs::Key::is_key_work))]
    fn write(&self, out: &mut Vec<u8>) -> Result<(), EntryFault> {
        self.name.write(out)?;
        self.key.write(out)?;
        self.deps.write(out)
    }

    #[tactic(auto, using(crate::proofs::StructLemmas::key_work_parts))]
    fn read(alloc: Global, format: Format, from: &mut Source) -> Result<Self, EntryFault> {
        let fields = Coded::read(alloc, format, from)?;
        let ((name, key), deps) = fields;
        Ok(KeyWork { name, key, deps })
    }
}
