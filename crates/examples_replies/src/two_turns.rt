ghost use Rattle.examples_histories.specs.Scenes.{config};
ghost use Rattle.examples_replies.specs.TwoTurns.{IsFound, IsUnreadAfter, stemcell};

/// A restart finds what a command before it was about as the director halted, and nothing else.
pub fn later_commands_find_what_was_asked()
    ensures asked { IsFound stemcell }
    ensures unasked { IsFound config → ⊥ }
{}

/// A restart is told that the director's store was not read only where that failed, as often as its count rose.
pub fn unread_restarts_have_causes()
    ensures failed { IsUnreadAfter 1 2 }
    ensures not_failed { IsUnreadAfter 0 1 → ⊥ }
    ensures not_counted { IsUnreadAfter 1 1 → ⊥ }
{}
