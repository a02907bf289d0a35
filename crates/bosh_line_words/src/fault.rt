ghost use Rattle.std.specs.Prelude.{◌≡◌};
ghost use Rattle.bosh_line_words.specs.declared.fault.LineFault.TheVariants.{Memory};

use std::alloc::{AllocError, AllocFailed};

/// Why a line is no command.
#[derive(Clone, Copy, Debug, PartialEq, Eq)]
pub enum LineFault {
    /// Its first words name no command.
    UnknownCommand,
    /// A word is not of the kind that its place asks for.
    BadArgument {
        /// How many bytes of the line stand before the word.
        place: u32,
    },
    /// It ends before its last word.
    Missing,
    /// It has a word too many.
    Extra,
    /// It has more than 1,048,576 bytes.
    TooLarge,
    /// It is no command that may be carried out together with others. Lines that are read alone never have this fault.
    BadTogether,
    Memory,
}

impl From<AllocError> for LineFault {
    ghost from_gives = { λ _ fault. fault ≡ Memory };

    fn from(_: AllocError) -> Self {
        LineFault::Memory
    }
}

impl<T: Drop> From<AllocFailed<T>> for LineFault {
    ghost from_gives = { λ _ fault. fault ≡ Memory };

    fn from(_: AllocFailed<T>) -> Self {
        LineFault::Memory
    }
}
