//! Why a text cannot be read.

ghost use Rattle.std.specs.Prelude.{◌≡◌};
ghost use Rattle.bosh_yaml.specs.declared.fault.ReadFault.TheVariants.{Memory};

use std::alloc::{AllocError, AllocFailed};

/// Why a text cannot be read, or want of memory. The lines of a text are counted from 1.
#[derive(Debug, Drop)]
pub enum ReadFault {
    /// The text has no form of the subset at this line; line 0 for a text that is JSON.
    Syntax { line: u32 },
    /// The first key that stands a second time in its mapping is on this line.
    RepeatedKey { line: u32 },
    /// Lists and mappings nest deeper than 64.
    TooDeep,
    /// The text has more than 1,048,576 bytes.
    TooLarge,
    /// A number of a JSON text is no integer within 64 bits.
    Number,
    /// Memory ran out.
    Memory,
}

impl From<AllocError> for ReadFault {
    ghost from_gives = { λ _ e. e ≡ Memory };

    fn from(_e: AllocError) -> ReadFault {
        ReadFault::Memory
    }
}

impl<T: Drop> From<AllocFailed<T>> for ReadFault {
    ghost from_gives = { λ _ e. e ≡ Memory };

    fn from(_e: AllocFailed<T>) -> ReadFault {
        ReadFault::Memory
    }
}
