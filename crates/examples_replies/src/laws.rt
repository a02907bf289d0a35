ghost use Rattle.examples_replies.specs.Laws.{NothingIsLeft, WhatIsDueMayBeMade};

/// A reply is due behind moves that its command may make.
pub fn what_is_due_may_be_made()
    ensures { WhatIsDueMayBeMade }
{}

/// As long as a director goes on, nothing is under way on it.
pub fn nothing_is_left()
    ensures { NothingIsLeft }
{}
