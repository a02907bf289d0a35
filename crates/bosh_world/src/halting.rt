ghost use Rattle.std.specs.Prelude.{◌≡◌, false};
ghost use Rattle.bosh_world.specs.Faults.{answered_as, cloud_fault, fault_as, halt_by, halt_by_cloud, halt_of};
ghost use Rattle.bosh_moves.specs.Replies.{replies_in};
ghost use Rattle.bosh_moves.specs.Story.{Follows, IsOf};

use crate::SiteFault;
use crate::fault::{cause_of, of_book, store_fault};
use bosh_base::{Cause, Entry};
use bosh_book::BookFault;
use bosh_cloud::CloudFault;
use bosh_moves::History;
use bosh_ports::Rig;
use std::alloc::Global;

/// What a call of the book did is told. Where the store failed in it, the site halts.
pub(crate) fn told<T>(
    history: &mut History,
    alloc: Global,
    entries: &[Entry],
    effects: &[Entry],
    sprung: Option<Rig>,
    answer: Result<T, BookFault>,
) -> Result<T, SiteFault>
    requires of { IsOf history.old entries.now }
    requires running { history.old.is_halted ≡ false }
    ensures answer { result ≡ answered_as sprung answer }
    ensures follows { Follows history.old entries.now effects.now (halt_of sprung answer) history.new }
    ensures silent { replies_in history.new.moves ≡ replies_in history.old.moves }
{
    match answer {
        Ok(value) => {
            history.follow(alloc, entries, effects, None);
            Ok(value)
        }
        Err(fault) => Err(refused(history, alloc, entries, effects, sprung, fault)),
    }
}

/// The refusal of a call of the book, of which the same is told.
pub(crate) fn refused(
    history: &mut History,
    alloc: Global,
    entries: &[Entry],
    effects: &[Entry],
    sprung: Option<Rig>,
    fault: BookFault,
) -> SiteFault
    requires of { IsOf history.old entries.now }
    requires running { history.old.is_halted ≡ false }
    ensures answer { result ≡ fault_as sprung fault }
    ensures follows { Follows history.old entries.now effects.now (halt_by sprung fault) history.new }
    ensures silent { replies_in history.new.moves ≡ replies_in history.old.moves }
{
    let halt = halt_by(sprung, &fault);
    history.follow(alloc, entries, effects, halt);
    fault_as(sprung, fault)
}

// The halt that comes of a refusal of the book.
fn halt_by(sprung: Option<Rig>, fault: &BookFault) -> Option<Cause>
    ensures { result ≡ halt_by sprung fault.now }
{
    match fault {
        BookFault::StoreFault => Some(cause_of(sprung)),
        _ => None,
    }
}

// What a refusal of the book is answered as.
fn fault_as(sprung: Option<Rig>, fault: BookFault) -> SiteFault
    ensures { result ≡ fault_as sprung fault }
{
    match fault {
        BookFault::StoreFault => store_fault(cause_of(sprung)),
        fault => of_book(fault),
    }
}

/// The refusal of a call of the cloud, which has changed only where its store failed: then the site halts.
pub(crate) fn refused_by_cloud(
    history: &mut History,
    alloc: Global,
    entries: &[Entry],
    effects: &[Entry],
    fault: CloudFault,
) -> SiteFault
    requires of { IsOf history.old entries.now }
    requires running { history.old.is_halted ≡ false }
    ensures answer { result ≡ cloud_fault fault }
    ensures follows { Follows history.old entries.now effects.now (halt_by_cloud fault) history.new }
    ensures silent { replies_in history.new.moves ≡ replies_in history.old.moves }
{
    history.follow(alloc, entries, effects, halt_by_cloud(&fault));
    cloud_fault(&fault)
}

fn halt_by_cloud(fault: &CloudFault) -> Option<Cause>
    ensures { result ≡ halt_by_cloud fault.now }
{
    match fault {
        CloudFault::Memory => None,
        _ => Some(Cause::CloudStore),
    }
}

fn cloud_fault(fault: &CloudFault) -> SiteFault
    ensures { result ≡ cloud_fault fault.now }
{
    match fault {
        CloudFault::Memory => SiteFault::Memory,
        _ => SiteFault::CloudStore,
    }
}
