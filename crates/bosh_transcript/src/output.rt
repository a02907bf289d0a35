ghost use Rattle.std.specs.Prelude.{◌≡◌, ◌++◌, ℕ, List, Some, IfErr, OnOk};
ghost use Rattle.bosh_ports.specs.Faults.{NeverFalls, Rose};
ghost use Rattle.bosh_transcript.specs.Writing.{WritesFront};
ghost use Rattle.bosh_transcript.specs.declared.status.Status.TheVariants.{Sink};

use crate::Status;
use bosh_ports::{Put, Sink};

/// Writes all bytes, or a front of them where the sink fails.
pub fn write_all<O: Sink>(sink: &mut O, bytes: &[u8]) -> Result<(), Status>
    ensures count { NeverFalls (O.faults sink.old) (O.faults sink.new) }
    ensures all { OnOk result ((was : List ℕ) → O.written sink.old ≡ Some was → O.written sink.new ≡ Some (was ++ bytes.now)) }
    ensures failed { IfErr result (λ status. (status ≡ Sink) × Rose (O.faults sink.old) (O.faults sink.new)) }
    ensures front { (was : List ℕ) → O.written sink.old ≡ Some was → WritesFront was bytes.now (O.written sink.new) }
{
    let mut left = bytes;
    while !left.is_empty() {
        match sink.put(left) {
            Put::Failed => return Err(Status::Sink),
            Put::Took(count) => left = &left[count..],
        }
    }
    Ok(())
}
