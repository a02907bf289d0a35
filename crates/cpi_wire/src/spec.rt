ghost use Rattle.std.specs.Prelude.{◌≡◌};

use crate::fault::WireFault;
use crate::fields::{read_three, read_two, write_three, write_two};
use crate::wired::Wired;
use bosh_base::{Mark, Placed, Spec};
use serde_json::Value;
use std::alloc::Global;

impl Wired for Mark {
    ghost use Rattle.cpi_wire.specs.Spec.{mark_data, is_mark, mark_from};

    ghost image = { mark_data };

    ghost fits = { is_mark };

    ghost reading = { mark_from };

    #[tactic(auto, unfolding(crate::specs::Spec::mark_data, crate::specs::Spec::is_mark))]
    fn write(&self, out: &mut Vec<u8>) -> Result<(), WireFault> {
        write_two(&self.name, &self.fingerprint, out)
    }

    #[tactic(auto, unfolding(crate::specs::Spec::mark_from))]
    fn read(alloc: Global, value: &Value) -> Result<Self, WireFault> {
        let (name, fingerprint) = read_two(alloc, value)?;
        Ok(Mark { name, fingerprint })
    }
}

impl Wired for Placed {
    ghost use Rattle.cpi_wire.specs.Spec.{placed_data, is_placed, placed_from};

    ghost image = { placed_data };

    ghost fits = { is_placed };

    ghost reading = { placed_from };

    #[tactic(auto, unfolding(crate::specs::Spec::placed_data, crate::specs::Spec::is_placed))]
    fn write(&self, out: &mut Vec<u8>) -> Result<(), WireFault> {
        write_two(&self.path, &self.text, out)
    }

    #[tactic(auto, unfolding(crate::specs::Spec::placed_from))]
    fn read(alloc: Global, value: &Value) -> Result<Self, WireFault> {
        let (path, text) = read_two(alloc, value)?;
        Ok(Placed { path, text })
    }
}

impl Wired for Spec {
    ghost use Rattle.cpi_wire.specs.Spec.{spec_data, is_spec, spec_from};

    ghost image = { spec_data };

    ghost fits = { is_spec };

    ghost reading = { spec_from };

    #[tactic(auto, unfolding(crate::specs::Spec::spec_data, crate::specs::Spec::is_spec))]
    fn write(&self, out: &mut Vec<u8>) -> Result<(), WireFault> {
        write_three(&self.jobs, &self.packages, &self.files, out)
    }

    #[tactic(auto, unfolding(crate::specs::Spec::spec_from))]
    fn read(alloc: Global, value: &Value) -> Result<Self, WireFault> {
        let (jobs, packages, files) = read_three(alloc, value)?;
        Ok(Spec {
            jobs,
            packages,
            files,
        })
    }
}
