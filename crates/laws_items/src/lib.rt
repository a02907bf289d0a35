//! What is left of tasks at each moment of a permitted history: whose turn it is.
#![tactic(auto)]

ghost use Rattle.laws_facts.specs.Kept.{IsKept};
ghost use Rattle.laws_items.specs.Items.{AreOfItems, CanBeAsked};

/// The owner of an open call is an item of the present phase of its task, and the call is a ping just where its owner
/// is to be asked.
pub fn open_calls_are_of_items()
    ensures { IsKept AreOfItems }
{}

/// While a task works, a row that it is to ask has a machine and is not lost, and its instance is not through.
pub fn rows_can_be_asked()
    ensures { IsKept CanBeAsked }
{}
