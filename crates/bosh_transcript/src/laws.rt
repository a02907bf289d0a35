ghost use Rattle.std.specs.Prelude.{ℕ, List};
ghost use Rattle.bosh_base.specs.declared.moves.Move.{Move};
ghost use Rattle.bosh_moves.specs.Replies.{replies_in};
ghost use Rattle.bosh_transcript.specs.Extents.{AreDue};
ghost use Rattle.bosh_transcript.specs.Past.{Past, Proceeds};
ghost use Rattle.bosh_transcript.specs.Replies.{answered_commands};
ghost use Rattle.bosh_transcript.specs.Segments.{IsSegment};
ghost use Rattle.bosh_transcript.specs.declared.extent.Extent.{Extent};

/// A call that adds nothing proceeds, and so do two calls one after the other.
pub fn calls_follow_each_other()
    ensures none { (past : Past) → Proceeds past past }
    ensures both { (was mid now : Past) → Proceeds was mid → Proceeds mid now → Proceeds was now }
{}

/// Each command of a turn is answered once: the first reply is that of its own command, and the others come in some
/// order; a deployment that is made is answered five times.
pub fn turns_answer_each_command()
    ensures { (extent : Extent) (number others : ℕ) (segment : List Move) → IsSegment extent number others segment →
        AreDue extent number others (answered_commands (replies_in segment)) }
{}
