ghost use Rattle.std.specs.Prelude.{◌≡◌, ◌↔◌, ◌++◌, [], ◌∷◌, false, true, IfErr, IsTrue, OnErr, OnOk};
ghost use Rattle.bosh_base.specs.History.{Extends};
ghost use Rattle.bosh_asks.specs.declared.fault.BookFault.TheVariants as book;
ghost use Rattle.bosh_base.specs.declared.moves.Move.TheVariants as moves;
ghost use Rattle.bosh_book.specs.Current.{IsCurrent};
ghost use Rattle.bosh_moves.specs.Replies.{replies_in};
ghost use Rattle.bosh_world.specs.Holds.{IsHeld};
ghost use Rattle.bosh_world.specs.Told.{IsPerformable};
ghost use Rattle.bosh_world.specs.Steps.{Comes, IsAllTold, KeepsBooks, Says};
ghost use Rattle.bosh_world.specs.declared.fault.SiteFault.TheVariants.{Book, Memory};
ghost use Rattle.bosh_world.specs.Silent.{IsSilent, moves_of};

use crate::answers::has_answered;
use crate::fault::halted;
use crate::{Armed, HeldCall, Site, SiteFault};
use bosh_base::{Move, Reply, Said};
use bosh_book::{Book, Permit};
use bosh_cloud::SimCloud;
use bosh_ports::{Keeper, Rigged};

impl<K: Keeper, L: Keeper> Site<K, L> {
    /// What the director knows.
    pub fn book(&self) -> &Book<Rigged<K>>
        ensures { result.now ≡ self.now.book }
    {
        &self.book
    }

    /// The cloud.
    pub fn cloud(&self) -> &SimCloud<L>
        ensures { result.now ≡ self.now.cloud }
    {
        &self.cloud
    }

    /// The moves so far.
    pub fn moves(&self) -> &[Move]
        ensures { result.now ≡ self.now.history.moves }
    {
        self.history.moves()
    }

    /// How many entries of the book, and how many effects of the cloud, there were before the first move.
    pub fn opening(&self) -> (u64, u64)
        ensures { result ≡ self.now.opening }
    {
        self.opening
    }

    /// Nothing more is done before a restart.
    pub fn halted(&self) -> bool
        ensures { result ≡ self.now.history.is_halted }
    {
        self.history.is_halted()
    }

    /// The traps that stop the director and have not fired, in the order in which they were set.
    pub fn armed(&self) -> &[Armed]
        ensures { result.now ≡ self.now.traps.items }
    {
        self.traps.as_slice()
    }

    /// Whether the call of a permit is open and can be performed.
    pub fn is_current(&self, permit: &Permit) -> bool
        ensures { IsTrue result ↔ IsPerformable self.now permit.now }
    {
        self.book.is_current(permit) && self.calls.is_performable(permit.n())
    }

    /// Whether a call was performed with this answer and is still open.
    pub fn is_held(&self, call: &HeldCall) -> bool
        ensures { IsTrue result ↔ IsHeld self.now call.now }
    {
        let n = call.permit().n();
        self.book.is_current(call.permit())
            && has_answered(self.moves(), self.calls.place(n), n, call.answer())
    }

    /// Notes what a command was answered. For want of memory no reply is noted.
    pub fn say(&mut self, command: u32, reply: Reply) -> Result<(), SiteFault>
        ensures said { OnOk result (Says self.old (record { command = command; reply = reply }) self.new) }
        ensures refused { OnErr result (Comes self.old [] self.new × KeepsBooks self.old self.new) }
        ensures replies { OnOk result (replies_in (moves_of self.new)
            ≡ replies_in (moves_of self.old) ++ record { command = command; reply = reply } ∷ []) }
        ensures silent { OnErr result (IsSilent self.old self.new) }
        ensures memory { IfErr result (λ fault. fault ≡ Memory) }
        ensures grows { Extends (moves_of self.old) (moves_of self.new) }
    {
        match self.tell() {
            Ok(()) => {
                self.history.push(Move::Said(Said { command, reply }));
                Ok(())
            }
            Err(fault) => {
                drop(reply);
                Err(fault)
            }
        }
    }

    /// Gives the two keepers back.
    pub fn into_stores(self) -> (K, L)
        ensures { (result.0 ≡ self.book.journal.store.inner) × (result.1 ≡ self.cloud.store) }
    {
        let Site { book, cloud, .. } = self;
        (book.into_store().into_inner(), cloud.into_store())
    }

    /// That the site has not halted.
    pub(crate) fn check_running(&self) -> Result<(), SiteFault>
        ensures runs { OnOk result (self.now.history.is_halted ≡ false) }
        ensures halted { IfErr result (λ fault.
            (fault ≡ SiteFault.Book book.Stopped) × (self.now.history.is_halted ≡ true)) }
    {
        if self.history.is_halted() {
            return Err(halted());
        }
        Ok(())
    }

    /// Tells as moves what happened and was not told yet. After it there is a place for a move, and one for a halt.
    pub(crate) fn tell(&mut self) -> Result<(), SiteFault>
        ensures comes { Comes self.old [] self.new }
        ensures keeps { KeepsBooks self.old self.new }
        ensures told { OnOk result (IsAllTold self.new) }
        ensures memory { IfErr result (λ fault. fault ≡ Memory) }
        ensures grows { Extends (moves_of self.old) (moves_of self.new) }
        ensures silent { IsSilent self.old self.new }
    {
        Ok(
            self.history
                .tell(self.alloc, self.book.entries(), self.cloud.effects())?,
        )
    }
}
