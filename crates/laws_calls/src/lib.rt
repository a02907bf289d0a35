//! Open calls at each moment of a permitted history: each is the one that was to be made, and is answered in its kind.
#![tactic(auto)]

ghost use Rattle.laws_calls.specs.Calls.{AreFitting, AreToldInKind, HaveTheirMachines};
ghost use Rattle.laws_facts.specs.Kept.{IsKept, OfRecords};

/// An open call is the one that was to be made for what its owner was before it; and where it leaves a doubt, the owner
/// is in doubt of it. Of an orphaned disk, it is one on the disk, which is recorded.
pub fn open_calls_fit_what_is_known()
    ensures { IsKept AreFitting }
{}

/// The cloud answers a call in its kind, and tells of an effect just where the call changes something and nothing was
/// gone, unless it fails.
pub fn answers_are_in_kind()
    ensures { IsKept AreToldInKind }
{}

/// A row that is lost, or in doubt of another call than the creation of a machine, has a machine.
pub fn rows_have_their_machines()
    ensures { IsKept (OfRecords HaveTheirMachines) }
{}
