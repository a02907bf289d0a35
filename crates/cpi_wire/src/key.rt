ghost use Rattle.std.specs.Prelude.{◌≡◌};

use crate::fault::WireFault;
use crate::fields::{read_three, write_three};
use crate::wired::Wired;
use bosh_base::{Key, KeyWork};
use serde_json::Value;
use std::alloc::Global;

impl Wired for Key {
    ghost use Rattle.cpi_wire.specs.Key.{key_data, is_key, key_from};

    ghost image = { key_data };

    ghost fits = { is_key };

    ghost reading = { key_from };

    #[tactic(auto, unfolding(crate::specs::Key::key_data, crate::specs::Key::is_key))]
    fn write(&self, out: &mut Vec<u8>) -> Result<(), WireFault> {
        write_three(&self.fingerprint, &self.os, &self.version, out)
    }

    #[tactic(auto, unfolding(crate::specs::Key::key_from))]
    fn read(alloc: Global, value: &Value) -> Result<Self, WireFault> {
        let (fingerprint, os, version) = read_three(alloc, value)?;
        Ok(Key {
            fingerprint,
            os,
            version,
        })
    }
}

impl Wired for KeyWork {
    ghost use Rattle.cpi_wire.specs.Key.{work_data, is_work, work_from};

    ghost image = { work_data };

    ghost fits = { is_work };

    ghost reading = { work_from };

    #[tactic(auto, unfolding(crate::specs::Key::work_data, crate::specs::Key::is_work))]
    fn write(&self, out: &mut Vec<u8>) -> Result<(), WireFault> {
        write_three(&self.name, &self.key, &self.deps, out)
    }

    #[tactic(auto, unfolding(crate::specs::Key::work_from))]
    fn read(alloc: Global, value: &Value) -> Result<Self, WireFault> {
        let (name, key, deps) = read_three(alloc, value)?;
        Ok(KeyWork { name, key, deps })
    }
}
