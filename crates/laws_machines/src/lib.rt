//! Compile machines at each moment of a permitted history: what is recorded of them, what they are for, and that a key
//! is compiled once at a time.
#![tactic(auto)]

ghost use Rattle.laws_facts.specs.Kept.{IsKept, OfRecords};
ghost use Rattle.laws_machines.specs.Machines.{AreAlone, AreCompiledAlone, AreCompiledNew, AreDeletedCompiled};
ghost use Rattle.laws_machines.specs.Machines.{AreDoubtsOpen, AreOfGoals, AreShaped};

/// A compile machine whose number is not known is in doubt of its creation, and one whose number is known of nothing, or
/// of its deletion.
pub fn compile_machines_have_shape()
    ensures { IsKept (OfRecords AreShaped) }
{}

/// While a task works, each compile machine of it is of a slot of its goal, for a key of the goal all whose needs are
/// compiled.
pub fn compile_machines_are_of_goals()
    ensures { IsKept AreOfGoals }
{}

/// While a task works of which no call failed, a compile machine of it is in doubt of its open call alone.
pub fn doubts_of_compile_machines_are_open()
    ensures { IsKept AreDoubtsOpen }
{}

/// While a task works, no two compile machines of it are for one key, and one is deleted only once its key is compiled.
pub fn compile_machines_have_their_keys()
    ensures alone { IsKept AreAlone }
    ensures compiled { IsKept AreDeletedCompiled }
{}

/// What an open call compiles is not compiled, and no other open call compiles it.
pub fn keys_are_compiled_once()
    ensures new { IsKept AreCompiledNew }
    ensures alone { IsKept AreCompiledAlone }
{}
