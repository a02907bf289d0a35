ghost use Rattle.std.specs.Prelude.{◌≡◌};

use crate::fault::WireFault;
use crate::fields::{read_five, read_two, write_five, write_two};
use crate::wired::Wired;
use bosh_base::{DiskWant, Make, NetAddr};
use serde_json::Value;
use std::alloc::Global;

impl Wired for NetAddr {
    ghost use Rattle.cpi_wire.specs.Make.{net_addr_data, is_net_addr, net_addr_from};

    ghost image = { net_addr_data };

    ghost fits = { is_net_addr };

    ghost reading = { net_addr_from };

    #[tactic(auto, unfolding(crate::specs::Make::net_addr_data, crate::specs::Make::is_net_addr))]
    fn write(&self, out: &mut Vec<u8>) -> Result<(), WireFault> {
        write_two(&self.net, &self.addr, out)
    }

    #[tactic(auto, unfolding(crate::specs::Make::net_addr_from))]
    fn read(alloc: Global, value: &Value) -> Result<Self, WireFault> {
        let (net, addr) = read_two(alloc, value)?;
        Ok(NetAddr { net, addr })
    }
}

impl Wired for Make {
    ghost use Rattle.cpi_wire.specs.Make.{make_data, is_make, make_from};

    ghost image = { make_data };

    ghost fits = { is_make };

    ghost reading = { make_from };

    #[tactic(auto, unfolding(crate::specs::Make::make_data, crate::specs::Make::is_make))]
    fn write(&self, out: &mut Vec<u8>) -> Result<(), WireFault> {
        write_five(&self.os, &self.version, &self.az, &self.vm, &self.nets, out)
    }

    #[tactic(auto, unfolding(crate::specs::Make::make_from))]
    fn read(alloc: Global, value: &Value) -> Result<Self, WireFault> {
        let (os, version, az, vm, nets) = read_five(alloc, value)?;
        Ok(Make {
            os,
            version,
            az,
            vm,
            nets,
        })
    }
}

impl Wired for DiskWant {
    ghost use Rattle.cpi_wire.specs.Make.{want_data, is_want, want_from};

    ghost image = { want_data };

    ghost fits = { is_want };

    ghost reading = { want_from };

    #[tactic(auto, unfolding(crate::specs::Make::want_data, crate::specs::Make::is_want))]
    fn write(&self, out: &mut Vec<u8>) -> Result<(), WireFault> {
        write_two(&self.size, &self.properties, out)
    }

    #[tactic(auto, unfolding(crate::specs::Make::want_from))]
    fn read(alloc: Global, value: &Value) -> Result<Self, WireFault> {
        let (size, properties) = read_two(alloc, value)?;
        Ok(DiskWant { size, properties })
    }
}
