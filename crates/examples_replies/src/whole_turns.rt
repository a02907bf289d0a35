ghost use Rattle.bosh_base.specs.declared.reply.Reply.TheVariants as replies;
ghost use Rattle.examples_replies.specs.WholeTurns.{IsToldSo};

/// Of a line that takes another along the moves of both are made, and both are told.
pub fn turns_are_made()
    ensures { IsToldSo 5 (replies.TaskFinished 1) }
{}
