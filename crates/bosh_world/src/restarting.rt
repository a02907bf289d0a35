ghost use Rattle.std.specs.Prelude.{◌≡◌, ◌⊎◌, ◌<◌, false, length, true, IfErr, IfOk, None, OnErr, OnOk, Ok, Some};
ghost use Rattle.bosh_book.specs.Starts.{StartsFrom};
ghost use Rattle.bosh_moves.specs.Replies.{replies_in};
ghost use Rattle.bosh_moves.specs.Story.{IsOf, IsTold, Tells};
ghost use Rattle.bosh_ports.specs.Rigged.{broken_of, faults_of};
ghost use Rattle.bosh_world.specs.Anew.{BookRestarts, GoesAnew, Halts, HaltsAnew, IsAtHalt, SameTraps, StaysUnread};
ghost use Rattle.bosh_world.specs.Anew.{halt_after, has_kept_entry};
ghost use Rattle.bosh_world.specs.Faults.{fault_as};
ghost use Rattle.bosh_world.specs.Restarts.{HaltsAgain, IsBookUnread, IsUnread, RefusesRestart, Rereads, Restarts, cause_again};
ghost use Rattle.bosh_world.specs.Silent.{IsSilent};
ghost use Rattle.bosh_world.specs.Steps.{bodies_of};

use crate::fault::{cause_of, of_book, of_cloud, store_fault};
use crate::loading::read;
use crate::{Site, SiteFault};
use bosh_base::{Cause, CopyFault, Entry};
use bosh_book::{Book, BookFault};
use bosh_calls::Calls;
use bosh_moves::History;
use bosh_ports::{Keeper, Rig, Rigged};
use std::alloc::Global;

impl<K: Keeper, L: Keeper> Site<K, L> {
    /// Starts the director anew, which halts first where it has not: the cloud's store is read again, and then the
    /// book's, and tasks that were open end as interrupted. A refusal leaves the site halted, but for one for want of
    /// memory before anything was done. One that comes before the entries were read makes no move but that first halt.
    /// One that comes later has made the move of the restart, and then a halt.
    pub fn restart(&mut self) -> Result<(), SiteFault>
        ensures restarted { OnOk result (Restarts K.bodies K.faults K.is_broken L.bodies L.faults self.old (Ok tt) None
            self.new) }
        ensures refused { IfErr result (λ fault. RefusesRestart K.bodies K.faults K.is_broken L.bodies L.faults
            self.old fault self.new) }
        ensures silent { IsSilent self.old self.new }
    {
        match halt_first(
            &mut self.history,
            self.alloc,
            self.book.entries(),
            self.cloud.effects(),
        ) {
            Ok(()) => self.restart_cloud(),
            Err(_) => Err(SiteFault::Memory),
        }
    }

    // The stores are read again, of a site that has halted.
    fn restart_cloud(&mut self) -> Result<(), SiteFault>
        requires halted { IsAtHalt self.old.history self.old.book.journal.entries }
        ensures restarted { OnOk result (BookRestarts K.bodies K.faults K.is_broken self.old (Ok tt) None self.new
            × Rereads L.bodies L.faults self.old.cloud self.new.cloud) }
        ensures refused { IfErr result (λ fault. HaltsAnew K.bodies K.faults K.is_broken self.old fault self.new
            × Rereads L.bodies L.faults self.old.cloud self.new.cloud
            ⊎ IsUnread K.bodies K.faults K.is_broken L.bodies L.faults self.old fault self.new
            × StaysUnread L.bodies self.old self.new) }
        ensures same { SameTraps self.old self.new }
        ensures silent { IsSilent self.old self.new }
    {
        match self.cloud.reload() {
            Ok(()) => self.restart_book(),
            Err(fault) => Err(of_cloud(fault)),
        }
    }

    // The cloud was read again.
    fn restart_book(&mut self) -> Result<(), SiteFault>
        requires halted { IsAtHalt self.old.history self.old.book.journal.entries }
        requires fresh { self.old.cloud.is_stale ≡ false }
        ensures restarted { OnOk result (BookRestarts K.bodies K.faults K.is_broken self.old (Ok tt) None self.new) }
        ensures refused { IfErr result (λ fault. HaltsAnew K.bodies K.faults K.is_broken self.old fault self.new
            ⊎ IsBookUnread K.bodies K.faults K.is_broken self.old.book fault self.new.book
            × StaysUnread L.bodies self.old self.new) }
        ensures same_cloud { self.new.cloud ≡ self.old.cloud }
        ensures same { SameTraps self.old self.new }
        ensures silent { IsSilent self.old self.new }
    {
        match reloaded(&mut self.book) {
            Ok(started) => {
                self.calls = Calls::none(self.alloc);
                start(
                    &mut self.history,
                    self.alloc,
                    &self.book,
                    self.cloud.effects(),
                    started,
                )
            }
            Err(fault) => Err(fault),
        }
    }
}

// Tells what has happened, and then that the site halts, where it has not.
fn halt_first(
    history: &mut History,
    alloc: Global,
    entries: &[Entry],
    effects: &[Entry],
) -> Result<(), CopyFault>
    requires { IsOf history.old entries.now }
    ensures ok { OnOk result (Halts history.old entries.now effects.now history.new
        × IsAtHalt history.new entries.now) }
    ensures refused { OnErr result (Tells history.old entries.now effects.now history.new
        ⊎ Halts history.old entries.now effects.now history.new) }
    ensures silent { replies_in history.new.moves ≡ replies_in history.old.moves }
{
    history.tell(alloc, entries, effects)?;
    history.halt(Cause::Stop);
    history.tell(alloc, entries, effects)
}

// What came of the start of a book whose store was read again, or that it was not read.
fn reloaded<K: Keeper>(book: &mut Book<Rigged<K>>) -> Result<Result<(), BookFault>, SiteFault>
    ensures started { IfOk result (λ started. StartsFrom (bodies_of K.bodies) (faults_of K.faults)
        (broken_of K.is_broken) false book.old.journal.store started book.new) }
    ensures unread { IfErr result (λ fault. IsBookUnread K.bodies K.faults K.is_broken book.old fault book.new) }
{
    let started = book.reload();
    if book.mended().is_some() {
        return Ok(started);
    }
    match started {
        Ok(()) => Ok(Ok(())),
        Err(fault) => Err(of_book(fault)),
    }
}

// The entries were read: the site goes on, or halts again.
fn start<K: Keeper>(
    history: &mut History,
    alloc: Global,
    book: &Book<Rigged<K>>,
    effects: &[Entry],
    started: Result<(), BookFault>,
) -> Result<(), SiteFault>
    requires halted { history.old.is_halted ≡ true }
    requires told { IsTold history.old }
    ensures restarted { OnOk result ((started ≡ Ok tt) × GoesAnew history.old book.now.journal.entries effects.now
        (has_kept_entry history.old book.now) None history.new) }
    ensures refused { IfErr result (λ fault. (cause : Cause) × (HaltsAgain book.now.journal.store.sprung started cause fault
        × GoesAnew history.old book.now.journal.entries effects.now (has_kept_entry history.old book.now) (Some cause)
        history.new)) }
    ensures silent { replies_in history.new.moves ≡ replies_in history.old.moves }
{
    let kept = history.entries() < read(book);
    match started {
        Ok(()) => match go_anew(history, alloc, book.entries(), effects, kept, None) {
            Ok(()) => Ok(()),
            Err(_) => Err(SiteFault::Memory),
        },
        Err(fault) => {
            let (cause, fault) = again(book.sprung(), fault);
            halt_anew(history, alloc, book.entries(), effects, kept, cause);
            Err(fault)
        }
    }
}

// The site goes on, or halts for a cause. Where there is no memory to tell that it started, it halts in any case.
fn go_anew(
    history: &mut History,
    alloc: Global,
    entries: &[Entry],
    effects: &[Entry],
    kept: bool,
    halt: Option<Cause>,
) -> Result<(), CopyFault>
    requires halted { history.old.is_halted ≡ true }
    requires told { IsTold history.old }
    requires there { kept ≡ true → history.old.entries < length entries.now }
    ensures anew { GoesAnew history.old entries.now effects.now kept (halt_after result halt) history.new }
    ensures silent { replies_in history.new.moves ≡ replies_in history.old.moves }
{
    let restarted = history.restart(alloc, entries, effects, kept, halt);
    match history.tell(alloc, entries, effects) {
        Ok(()) => restarted,
        Err(_) => restarted,
    }
}

// The site halts for a cause.
fn halt_anew(
    history: &mut History,
    alloc: Global,
    entries: &[Entry],
    effects: &[Entry],
    kept: bool,
    cause: Cause,
)
    requires halted { history.old.is_halted ≡ true }
    requires told { IsTold history.old }
    requires there { kept ≡ true → history.old.entries < length entries.now }
    ensures anew { GoesAnew history.old entries.now effects.now kept (Some cause) history.new }
    ensures silent { replies_in history.new.moves ≡ replies_in history.old.moves }
{
    match go_anew(history, alloc, entries, effects, kept, Some(cause)) {
        Ok(()) => {}
        Err(_) => {}
    }
}

// Why the site halts again where a start of the book was refused, and how that is told.
fn again(sprung: Option<Rig>, fault: BookFault) -> (Cause, SiteFault)
    ensures cause { result.0 ≡ cause_again sprung fault }
    ensures fault { result.1 ≡ fault_as sprung fault }
{
    match fault {
        BookFault::StoreFault => {
            let cause = cause_of(sprung);
            (cause, store_fault(cause))
        }
        fault => (Cause::Stop, of_book(fault)),
    }
}
