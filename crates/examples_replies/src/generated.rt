ghost use Rattle.std.specs.Prelude.{List, []};
ghost use Rattle.bosh_base.specs.declared.moves.Move.{Move};
ghost use Rattle.bosh_base.specs.declared.release.Release.{Release};
ghost use Rattle.bosh_base.specs.declared.reply.Reply.{Reply};
ghost use Rattle.bosh_due.specs.UnderWay.{UnderWay};
ghost use Rattle.examples_replies.specs.Generated.{IsGeneratedBy, IsMade, all_made};

/// A deployment is made by four commands, each of which is told, and the last line counts their calls; where nothing is
/// made, it is not told.
pub fn deployments_are_made()
    ensures made { (r : Release) (run : List Move) (reply : Reply) (now : UnderWay) → IsMade r run reply now →
        IsGeneratedBy (all_made r run reply) (all_made r run reply) now }
    ensures nothing_made { (now : UnderWay) → IsGeneratedBy [] [] now → ⊥ }
{}
