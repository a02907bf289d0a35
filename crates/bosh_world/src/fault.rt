ghost use Rattle.std.specs.Prelude.{◌≡◌};
ghost use Rattle.bosh_asks.specs.declared.fault.BookFault.TheVariants as book;
ghost use Rattle.bosh_world.specs.Faults.{cause_of, of_book, of_cloud, stop_fault, store_fault};
ghost use Rattle.bosh_world.specs.declared.fault.SiteFault.TheVariants.{Book, Memory};

use bosh_base::{Cause, CopyFault, Inst};
use bosh_book::BookFault;
use bosh_cloud::CloudFault;
use bosh_ports::Rig;
use std::alloc::{AllocError, AllocFailed};

/// Why a site did not do what it was asked.
#[derive(Drop)]
pub enum SiteFault {
    /// The book refused it. `Stopped` says that the site has halted.
    Book(BookFault),
    /// The cloud's store failed.
    CloudStore,
    /// The body at this place of the cloud's store, counted from 0, is none that the cloud keeps there.
    CloudDamaged { position: u64 },
    /// The instance has no running machine on which its disk is mounted.
    NotRunning { inst: Inst },
    /// The instance has no machine.
    NoMachine { inst: Inst },
    Memory,
}

impl From<AllocError> for SiteFault {
    ghost from_gives = { λ _ fault. fault ≡ Memory };

    fn from(_: AllocError) -> Self {
        SiteFault::Memory
    }
}

impl<T: Drop> From<AllocFailed<T>> for SiteFault {
    ghost from_gives = { λ _ fault. fault ≡ Memory };

    fn from(_: AllocFailed<T>) -> Self {
        SiteFault::Memory
    }
}

impl From<CopyFault> for SiteFault {
    ghost from_gives = { λ _ fault. fault ≡ Memory };

    fn from(_: CopyFault) -> Self {
        SiteFault::Memory
    }
}

/// How a refusal of the book is told as one of the site's.
pub(crate) fn of_book(fault: BookFault) -> SiteFault
    ensures { result ≡ of_book fault }
{
    match fault {
        BookFault::Memory => SiteFault::Memory,
        fault => SiteFault::Book(fault),
    }
}

/// How a refusal of the cloud is told as one of the site's.
pub(crate) fn of_cloud(fault: CloudFault) -> SiteFault
    ensures { result ≡ of_cloud fault }
{
    match fault {
        CloudFault::StoreFault | CloudFault::Broken => SiteFault::CloudStore,
        CloudFault::Damaged { position } => SiteFault::CloudDamaged { position },
        CloudFault::Memory => SiteFault::Memory,
    }
}

/// That the site has halted.
pub(crate) fn halted() -> SiteFault
    ensures { result ≡ Book book.Stopped }
{
    SiteFault::Book(BookFault::Stopped)
}

/// Why the director's store failed: a rig may have stopped the director.
pub(crate) fn cause_of(sprung: Option<Rig>) -> Cause
    ensures { result ≡ cause_of sprung }
{
    match sprung {
        Some(Rig::StopBefore | Rig::StopAfter) => Cause::Stop,
        _ => Cause::Store,
    }
}

/// How it is told that the director's store failed.
pub(crate) fn store_fault(cause: Cause) -> SiteFault
    ensures { result ≡ store_fault cause }
{
    match cause {
        Cause::Stop => halted(),
        _ => SiteFault::Book(BookFault::StoreFault),
    }
}

/// How a stop in a call is told.
pub(crate) fn stop_fault(cause: Cause) -> SiteFault
    ensures { result ≡ stop_fault cause }
{
    match cause {
        Cause::CloudStore => SiteFault::CloudStore,
        _ => halted(),
    }
}
