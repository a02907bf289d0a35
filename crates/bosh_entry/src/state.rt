ghost use Rattle.std.specs.Prelude.{◌≡◌};

use crate::coded::Coded;
use crate::fault::EntryFault;
use crate::format::Format;
use crate::source::Source;
use crate::variant::write_place;
use bosh_base::State;
use std::alloc::Global;

impl Coded for State {
    ghost use Rattle.bosh_entry.specs.State.{state, is_state, state_at};

    ghost spelling = { λ _. state };

    ghost fits = { λ _. is_state };

    ghost reading = { λ _. state_at };

    #[tactic(auto, unfolding(crate::specs::State::state, crate::specs::State::is_state))]
    fn write(&self, out: &mut Vec<u8>) -> Result<(), EntryFault> {
        match self {
            State::Running => write_place(0, out),
            State::Stopped => write_place(1, out),
            State::Detached => write_place(2, out),
        }
    }

    #[tactic(auto, unfolding(crate::specs::State::state_at))]
    fn read(_alloc: Global, _format: Format, from: &mut Source) -> Result<Self, EntryFault> {
        match from.byte()? {
            0 => Ok(State::Running),
            1 => Ok(State::Stopped),
            2 => Ok(State::Detached),
            _ => Err(EntryFault::NotAnEntry),
        }
    }
}
