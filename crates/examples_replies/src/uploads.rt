ghost use Rattle.std.specs.Prelude.{codes};
ghost use Rattle.bosh_base.specs.declared.release.Release.{Release};
ghost use Rattle.bosh_base.specs.declared.reply.Reply.{Reply};
ghost use Rattle.bosh_base.specs.declared.reply.Reply.TheVariants as replies;
ghost use Rattle.bosh_due.specs.UnderWay.{UnderWay};
ghost use Rattle.bosh_due.specs.UnderWay.UnderWay.{idle};
ghost use Rattle.bosh_due.specs.Uploads.{added, there_already};
ghost use Rattle.bosh_lines.specs.declared.command.Command.TheVariants as commands;
ghost use Rattle.examples_histories.specs.Scenes.{prepared};
ghost use Rattle.examples_histories.specs.Stopped.{stopped};
ghost use Rattle.examples_replies.specs.Replies.{naming, stopped_reply};
ghost use Rattle.examples_replies.specs.Scenes.{Ends, NeverEnds, NeverTells, Tells, no_files};
ghost use Rattle.examples_replies.specs.Stemcells.{jammy, noted};
ghost use Rattle.examples_replies.specs.Uploaded.{IsSpelled, UploadEnds, kept_folder};

/// A stemcell is added once.
pub fn stemcells_are_told()
    ensures there { Tells prepared 0 noted (commands.UploadStemcell (jammy (codes "1.1")))
        (replies.StemcellThere (jammy (codes "1.1"))) }
    ensures added { Ends prepared 1 1 noted (commands.UploadStemcell (jammy (codes "1.2")))
        (replies.StemcellAdded (jammy (codes "1.2"))) }
    ensures not_added { NeverTells prepared 0 noted (commands.UploadStemcell (jammy (codes "1.2")))
        (replies.StemcellAdded (jammy (codes "1.2"))) }
    ensures other_version { NeverEnds prepared 1 1 noted (commands.UploadStemcell (jammy (codes "1.3")))
        (replies.StemcellAdded (jammy (codes "1.3"))) }
    ensures not_there { NeverTells prepared 0 noted (commands.UploadStemcell (jammy (codes "1.2")))
        (replies.StemcellThere (jammy (codes "1.2"))) }
    ensures no_version { Tells prepared 0 noted (commands.UploadStemcell (jammy (codes "_")))
        (naming (codes "book") (codes "Differs") (codes "jammy/_")) }
    ensures halted { Tells prepared 6 stopped (commands.UploadStemcell (jammy (codes "_"))) stopped_reply }
{}

/// A release is added that the files of a folder spell, and no other one.
pub fn folders_are_uploaded()
    ensures added { (r : Release) → IsSpelled r → UploadEnds kept_folder r (replies.ReleaseAdded (added r)) idle }
    ensures told_otherwise { (r : Release) (now : UnderWay) →
        UploadEnds kept_folder r (replies.ReleaseThere (there_already r)) now → ⊥ }
    ensures no_folder { (r : Release) (reply : Reply) (now : UnderWay) → UploadEnds no_files r reply now → ⊥ }
{}
