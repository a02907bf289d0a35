//! Why a text is refused.
ghost use Rattle.std.specs.Prelude.{◌≡◌};
ghost use Rattle.bosh_ip.specs.declared.fault.IpFault.TheVariants.{Memory};

use std::alloc::AllocError;

/// The reasons for which a text is refused, or an address is not shown.
#[derive(Clone, Copy, Debug, PartialEq, Eq)]
pub enum IpFault {
    /// The text has not the form that is read.
    Syntax,
    /// The last address of a range is less than the first.
    Backwards,
    /// A network's address has a bit set past the prefix.
    HostBits,
    /// No memory is left for the text.
    Memory,
}

impl From<AllocError> for IpFault {
    ghost from_gives = { λ _ e. e ≡ Memory };

    fn from(_error: AllocError) -> IpFault {
        IpFault::Memory
    }
}
