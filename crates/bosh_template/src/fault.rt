ghost use Rattle.std.specs.Prelude.{◌≡◌};
ghost use Rattle.bosh_template.specs.declared.fault.TemplateFault.TheVariants.{Memory};

use bosh_base::{CopyFault, Text};
use std::alloc::{AllocError, AllocFailed};

/// Why a template is not read or not rendered.
#[derive(PartialEq, Eq, Drop)]
pub enum TemplateFault {
    /// The `<%` at this place, counted in bytes from 0, begins no lookup.
    Syntax { place: u64 },
    /// Neither the job nor the provider of the link lists a property of this name.
    Undeclared { name: Text },
    /// The property has no value.
    Missing { name: Text },
    /// The property is a list or a mapping.
    NotScalar { name: Text },
    /// No provider is tied to the link.
    NoLink { name: Text },
    /// The provider of the link has no instance of this index.
    NoInstance { name: Text, index: u32 },
    /// The text is longer than 1,048,576 bytes.
    Limit,
    /// There is no memory for the answer.
    Memory,
}

impl From<AllocError> for TemplateFault {
    ghost from_gives = { λ _ fault. fault ≡ Memory };

    fn from(_: AllocError) -> Self {
        TemplateFault::Memory
    }
}

impl<T: Drop> From<AllocFailed<T>> for TemplateFault {
    ghost from_gives = { λ _ fault. fault ≡ Memory };

    fn from(_: AllocFailed<T>) -> Self {
        TemplateFault::Memory
    }
}

impl From<CopyFault> for TemplateFault {
    ghost from_gives = { λ _ fault. fault ≡ Memory };

    fn from(_: CopyFault) -> Self {
        TemplateFault::Memory
    }
}
