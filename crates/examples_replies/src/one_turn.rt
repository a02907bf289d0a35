ghost use Rattle.std.specs.Prelude.{[], ◌∷◌, None, Some};
ghost use Rattle.bosh_lines.specs.declared.command.Command.TheVariants as commands;
ghost use Rattle.examples_replies.specs.AtOnce.{asks};
ghost use Rattle.examples_replies.specs.OneTurn.{IsSessionOf, IsSessionOver, IsSessionReading, IsToldToEnd, one_file};

/// The first line of a session has the number 1.
pub fn commands_are_numbered()
    ensures first { IsSessionOf 1 }
    ensures not_second { IsSessionOf 2 → ⊥ }
    ensures not_told_to_end { IsToldToEnd → ⊥ }
{}

/// The commands of a session are those of its input, each once.
pub fn commands_are_those_of_the_input()
    ensures none { IsSessionReading [] → ⊥ }
    ensures other { IsSessionReading (asks 1 commands.Releases ∷ []) → ⊥ }
    ensures more { IsSessionReading (asks 1 commands.Tasks ∷ asks 2 commands.Tasks ∷ []) → ⊥ }
{}

/// A shelf that has not told its files may tell them in a later turn, and then tells no others.
pub fn shelves_may_tell_later()
    ensures later { IsSessionOver None 1 }
    ensures others { IsSessionOver (Some one_file) 1 → ⊥ }
{}
