ghost use Rattle.std.specs.Prelude.{◌≡◌, ◌⊎◌};
ghost use Rattle.bosh_program.specs.Ends.{IsLineWritten};
ghost use Rattle.bosh_program.specs.Stores.{fault_of};
ghost use Rattle.bosh_transcript.specs.declared.status.Status.TheVariants as statuses;

use crate::plain::tell_fault;
use bosh_answers::AnswerFault;
use bosh_book::BookFault;
use bosh_ports::Sink;
use bosh_transcript::Status;
use bosh_world::SiteFault;
use std::alloc::Global;

/// A store of the program.
#[derive(Clone, Copy)]
pub enum StoreName {
    /// The director's.
    Director,
    /// The cloud's.
    Cloud,
}

/// Writes that a store could not be made, as far as the output takes it. How the program ends then.
pub fn unmade<O: Sink>(alloc: Global, store: StoreName, out: &mut O) -> Status
    ensures { ((result ≡ statuses.Unloaded) × IsLineWritten O.written O.faults (fault_of store) out.old out.new)
        ⊎ ((result ≡ statuses.Memory) × (out.new ≡ out.old)) }
{
    let fault = fault_of(store);
    let told = tell_fault(alloc, out, &fault);
    drop(fault);
    match told {
        Ok(()) => Status::Unloaded,
        Err(AnswerFault::Memory) => Status::Memory,
    }
}

// How it is told that a store could not be made.
fn fault_of(store: StoreName) -> SiteFault
    ensures { result ≡ fault_of store }
{
    match store {
        StoreName::Director => SiteFault::Book(BookFault::StoreFault),
        StoreName::Cloud => SiteFault::CloudStore,
    }
}
