//! How many entries were noted.
ghost use Rattle.std.specs.Prelude.{List, false, true, ◌++◌, ◌≡◌};
ghost use Rattle.std.specs.List.{list_all};
ghost use Rattle.bosh_base.specs.declared.moves.Move.{Move};
ghost use Rattle.bosh_history.specs.Fit.{IsFit};
ghost use Rattle.bosh_history.specs.Moments.{Opening};
ghost use Rattle.bosh_history.specs.Notes.{Outside};
ghost use Rattle.bosh_world.specs.Told.{story_of};
ghost use Rattle.laws_due.specs.Counted.{CountsNoted, goes_on};
ghost use Rattle.laws_sites.specs.Good.{IsGood};

use bosh_ports::Keeper;
use bosh_world::Site;

/// A good site whose book has counted what its history tells goes on so, as long as it does not start anew: each entry that is
/// noted counts, since none of them ends a task that a stop interrupted.
pub fn what_is_noted_is_counted<K: Keeper, L: Keeper>(was: &Site<K, L>, now: &Site<K, L>)
    ensures { (outside : Outside) (o : Opening) (more : List Move) → IsFit outside o
        → IsGood outside K.bodies L.bodies o was.now → IsGood outside K.bodies L.bodies o now.now
        → was.now.history.is_halted ≡ false → CountsNoted was.now → story_of now.now ≡ story_of was.now ++ more
        → list_all goes_on more ≡ true → now.now.book.read ≡ was.now.book.read → CountsNoted now.now }
{}
