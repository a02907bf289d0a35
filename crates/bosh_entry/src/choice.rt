ghost use Rattle.std.specs.Prelude.{◌≡◌};

use crate::coded::Coded;
use crate::fault::EntryFault;
use crate::format::Format;
use crate::source::Source;
use crate::variant::{write_place, write_variant};
use std::alloc::Global;

impl Coded for bool {
    ghost use Rattle.bosh_entry.specs.Choice.{flag, is_flag, flag_at};

    ghost spelling = { λ _. flag };

    ghost fits = { λ _. is_flag };

    ghost reading = { λ _. flag_at };

    fn write(&self, out: &mut Vec<u8>) -> Result<(), EntryFault> {
        match *self {
            false => out.push(0)?,
            true => out.push(1)?,
        }
        Ok(())
    }

    #[tactic(auto, unfolding(crate::specs::Choice::flag_at))]
    fn read(_alloc: Global, _format: Format, from: &mut Source) -> Result<Self, EntryFault> {
        match from.byte()? {
            0 => Ok(false),
            1 => Ok(true),
            _ => Err(EntryFault::NotAnEntry),
        }
    }
}

impl<T: Coded> Coded for Option<T> {
    ghost use Rattle.bosh_entry.specs.Choice.{option, is_option, option_at};

    ghost spelling = { λ format. option (T.spelling format) };

    ghost fits = { λ format. is_option (T.fits format) };

    ghost reading = { λ format. option_at (T.reading format) };

    fn write(&self, out: &mut Vec<u8>) -> Result<(), EntryFault> {
        match self {
            None => write_place(0, out),
            Some(value) => write_variant(1, value, out),
        }
    }

    #[tactic(auto, unfolding(crate::specs::Choice::option_at))]
    fn read(alloc: Global, format: Format, from: &mut Source) -> Result<Self, EntryFault> {
        match from.byte()? {
            0 => Ok(None),
            1 => Ok(Some(T::read(alloc, format, from)?)),
            _ => Err(EntryFault::NotAnEntry),
        }
    }
}
