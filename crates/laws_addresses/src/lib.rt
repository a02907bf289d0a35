//! Addresses at each moment of a permitted history: each is held within one deployment, by one machine that is recorded
//! and by one that is wanted at most, and no two machines that may be there share one.
#![tactic(auto)]

ghost use Rattle.laws_addresses.specs.Kept.{AreAddressed, AreMachinesApart, HavePlaces};
ghost use Rattle.laws_facts.specs.Addresses.{AddressFacts};
ghost use Rattle.laws_facts.specs.Kept.{IsKept};

/// An address is held within one deployment, by one machine that is recorded and one that is wanted at most, and where
/// it is held both ways, the machine that has it goes before the other is made.
pub fn addresses_are_kept()
    ensures { IsKept AddressFacts }
{}

/// While a task works that is of no single instance, each recorded instance of its deployment is of its goal, or is to
/// go.
pub fn places_are_kept()
    ensures { IsKept HavePlaces }
{}

/// While a task works that is of one instance, and not to detach it, no address of it is that of a recorded row that is
/// not of its goal.
pub fn tasks_stay_addressed()
    ensures { IsKept AreAddressed }
{}

/// At a moment at which all facts hold, no two machines that are there, or that open calls may be making, share an
/// address.
pub fn machines_are_apart()
    ensures { AreMachinesApart }
{}
