ghost use Rattle.std.specs.Prelude.{◌≡◌};

use crate::fault::WireFault;
use crate::wired::Wired;
use crate::write::add;
use serde_json::Value;
use std::alloc::Global;

impl Wired for bool {
    ghost use Rattle.cpi_wire.specs.Choice.{flag_data, is_flag, flag_from};

    ghost image = { flag_data };

    ghost fits = { is_flag };

    ghost reading = { flag_from };

    fn write(&self, out: &mut Vec<u8>) -> Result<(), WireFault> {
        match *self {
            true => add(b"true", out),
            false => add(b"false", out),
        }
    }

    fn read(_alloc: Global, value: &Value) -> Result<Self, WireFault> {
        match value.as_bool() {
            Some(flag) => Ok(flag),
            None => Err(WireFault::NotAValue),
        }
    }
}

/// Null, or the value.
impl<T: Wired> Wired for Option<T> {
    ghost use Rattle.cpi_wire.specs.Choice.{option_data, is_option, option_from};

    ghost image = { option_data T.image };

    ghost fits = { is_option T.fits };

    ghost reading = { option_from T.reading };

    fn write(&self, out: &mut Vec<u8>) -> Result<(), WireFault> {
        match self {
            None => add(b"null", out),
            Some(value) => value.write(out),
        }
    }

    fn read(alloc: Global, value: &Value) -> Result<Self, WireFault> {
        match value {
            Value::Null => Ok(None),
            _ => Ok(Some(T::read(alloc, value)?)),
        }
    }
}
