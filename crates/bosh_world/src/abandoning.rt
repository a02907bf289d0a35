ghost use Rattle.std.specs.Prelude.{◌≡◌, true};
ghost use Rattle.bosh_book.specs.Current.{IsCurrent};
ghost use Rattle.bosh_base.specs.History.{Extends};
ghost use Rattle.bosh_world.specs.Abandons.{Abandons, GivesUp};
ghost use Rattle.bosh_world.specs.Silent.{IsSilent, moves_of};

use crate::{HeldCall, Site};
use bosh_base::Cause;
use bosh_book::Permit;
use bosh_ports::Keeper;

impl<K: Keeper, L: Keeper> Site<K, L> {
    /// Gives up the call of a permit. The call stays open, and where the permit is current the site halts.
    pub fn abandon(&mut self, permit: Permit)
        ensures abandons { Abandons self.old permit self.new }
        ensures stays { self.old.history.is_halted ≡ true → self.new.history.is_halted ≡ true }
        ensures grows { Extends (moves_of self.old) (moves_of self.new) }
        ensures silent { IsSilent self.old self.new }
    {
        if self.book.is_current(&permit) {
            self.stop_book(permit);
        } else {
            self.book.abandon(permit);
        }
    }

    // The call of a permit is open, and is given up.
    fn stop_book(&mut self, permit: Permit)
        requires { IsCurrent self.old.book permit }
        ensures gives_up { GivesUp self.old self.new }
        ensures grows { Extends (moves_of self.old) (moves_of self.new) }
        ensures silent { IsSilent self.old self.new }
    {
        self.book.abandon(permit);
        if self.history.is_halted() {
            return;
        }
        self.history.follow(
            self.alloc,
            self.book.entries(),
            self.cloud.effects(),
            Some(Cause::Stop),
        );
    }

    /// Gives up a call that was performed.
    pub fn abandon_held(&mut self, call: HeldCall)
        ensures abandons { Abandons self.old call.permit self.new }
        ensures stays { self.old.history.is_halted ≡ true → self.new.history.is_halted ≡ true }
        ensures grows { Extends (moves_of self.old) (moves_of self.new) }
        ensures silent { IsSilent self.old self.new }
    {
        let HeldCall { permit, answer } = call;
        self.give_up(permit, answer);
    }

    // Generic, since an answer that is let go is dear to prove.
    fn give_up<A: Drop>(&mut self, permit: Permit, _answer: A)
        ensures abandons { Abandons self.old permit self.new }
        ensures stays { self.old.history.is_halted ≡ true → self.new.history.is_halted ≡ true }
        ensures grows { Extends (moves_of self.old) (moves_of self.new) }
        ensures silent { IsSilent self.old self.new }
    {
        self.abandon(permit);
    }
}
