ghost use Rattle.std.specs.Prelude.{◌≡◌, ◌++◌, OnOk, IfErr, decimal};
ghost use Rattle.cpi_wire.specs.declared.fault.WireFault.TheVariants.{Memory};

use crate::fault::WireFault;
use crate::wired::Wired;
use crate::write::add;
use bosh_base::Addr;
use serde_json::Value;
use std::alloc::Global;

/// Adds a number in decimal.
pub fn add_number(number: u64, out: &mut Vec<u8>) -> Result<(), WireFault>
    ensures ok { OnOk result (out.new.items ≡ out.old.items ++ decimal number) }
    ensures err { IfErr result (λ fault. fault ≡ Memory) }
{
    let mut digits = itoa::Buffer::new();
    add(digits.format(number).as_bytes(), out)
}

impl Wired for u64 {
    ghost use Rattle.cpi_wire.specs.Number.{number_data, is_number, number_from};

    ghost image = { number_data };

    ghost fits = { is_number };

    ghost reading = { number_from };

    fn write(&self, out: &mut Vec<u8>) -> Result<(), WireFault> {
        add_number(*self, out)
    }

    fn read(_alloc: Global, value: &Value) -> Result<Self, WireFault> {
        match value.as_u64() {
            Some(number) => Ok(number),
            None => Err(WireFault::NotAValue),
        }
    }
}

impl Wired for u32 {
    ghost use Rattle.cpi_wire.specs.Number.{number_data, is_small, small_from};

    ghost image = { number_data };

    ghost fits = { is_small };

    ghost reading = { small_from };

    fn write(&self, out: &mut Vec<u8>) -> Result<(), WireFault> {
        add_number(u64::from(*self), out)
    }

    fn read(alloc: Global, value: &Value) -> Result<Self, WireFault> {
        let number = u64::read(alloc, value)?;
        if number > u64::from(u32::MAX) {
            return Err(WireFault::NotAValue);
        }
        Ok(number as u32)
    }
}

/// By its number.
impl Wired for Addr {
    ghost use Rattle.cpi_wire.specs.Number.{addr_data, is_addr, addr_from};

    ghost image = { addr_data };

    ghost fits = { is_addr };

    ghost reading = { addr_from };

    fn write(&self, out: &mut Vec<u8>) -> Result<(), WireFault> {
        self.0.write(out)
    }

    fn read(alloc: Global, value: &Value) -> Result<Self, WireFault> {
        Ok(Addr(u32::read(alloc, value)?))
    }
}
