ghost use Rattle.std.specs.Prelude.{◌≡◌, ◌++◌, Bool, Option, true, OnOk, IfErr};
ghost use Rattle.serde_json.specs.View.{view};
ghost use Rattle.serde_json.specs.Written.{compact_text};
ghost use Rattle.cpi_wire.specs.Reading.{Gives};
ghost use Rattle.cpi_wire.specs.declared.fault.WireFault.TheVariants.{Memory};

use crate::fault::WireFault;
use serde_json::Value;
use std::alloc::Global;

/// A type whose values stand in JSON.
pub trait Wired: Sized + Drop {
    ghost use Rattle.serde_json.specs.Data.{Data};

    /// The JSON value that stands for a value.
    ghost image: { Self → Data };

    /// Whether a value is one that the type can hold.
    ghost fits: { Self → Bool };

    /// The value that a JSON value stands for.
    ghost reading: { Data → Option Self };

    /// Adds the compact text of a value at the end.
    fn write(&self, out: &mut Vec<u8>) -> Result<(), WireFault>
        ensures ok { OnOk result (out.new.items ≡ out.old.items ++ compact_text (image self.now)) }
        ensures fits { OnOk result (fits self.now ≡ true) }
        ensures err { IfErr result (λ fault. fault ≡ Memory) };

    /// The value that a JSON value stands for.
    fn read(alloc: Global, value: &Value) -> Result<Self, WireFault>
        ensures { Gives result (reading (view value.now)) };
}
