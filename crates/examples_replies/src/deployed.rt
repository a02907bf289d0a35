ghost use Rattle.std.specs.Prelude.{◌≡◌, ℕ, List, Err};
ghost use Rattle.bosh_answers.specs.declared.text_fault.TextFault.{TextFault};
ghost use Rattle.bosh_base.specs.declared.reply.Reply.{Reply};
ghost use Rattle.bosh_base.specs.declared.reply.Reply.TheVariants as replies;
ghost use Rattle.bosh_due.specs.UnderWay.{UnderWay};
ghost use Rattle.bosh_due.specs.UnderWay.UnderWay.{idle};
ghost use Rattle.bosh_manifest.specs.declared.manifest.Contents.{Contents};
ghost use Rattle.examples_histories.specs.Scenes.{Builder};
ghost use Rattle.examples_replies.specs.Deployed.{DeployEnds, IsOfTwo, asked_by};

/// A manifest is deployed that a block keeps, and its task is told; nothing is done for a text that is none.
pub fn manifests_are_deployed()
    ensures done { (built : Builder) (text : List ℕ) (manifest : Contents) → IsOfTwo text manifest →
        DeployEnds built text (replies.TaskFinished 1) idle }
    ensures no_manifest { (built : Builder) (text : List ℕ) (fault : TextFault) (reply : Reply) (now : UnderWay) →
        asked_by text ≡ Err fault → DeployEnds built text reply now → ⊥ }
{}
