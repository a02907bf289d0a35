ghost use Rattle.std.specs.Prelude.{◌≡◌, ◌↔◌, IsTrue};
ghost use Rattle.std.specs.Option.{option_copied};
ghost use Rattle.bosh_world.specs.Holds.{HasAnswered, IsDid};

use bosh_base::{Answer, Move, is_same};

// Whether a move says that a call was performed with an answer.
fn is_did(step: Option<&Move>, n: u64, answer: &Answer) -> bool
    ensures { IsTrue result ↔ IsDid (option_copied step.entry) n answer.now }
{
    match step {
        Some(Move::Did(did)) => did.n == n && is_same(&did.answer, answer),
        _ => false,
    }
}

/// Whether the move at a place says that a call was performed with an answer.
pub(crate) fn has_answered(moves: &[Move], place: Option<usize>, n: u64, answer: &Answer) -> bool
    ensures { IsTrue result ↔ HasAnswered moves.now place n answer.now }
{
    match place {
        Some(place) => is_did(moves.get(place), n, answer),
        None => false,
    }
}
