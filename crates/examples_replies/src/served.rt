ghost use Rattle.std.specs.Prelude.{[], ◌∷◌, codes};
ghost use Rattle.bosh_base.specs.declared.reply.Reply.TheVariants as replies;
ghost use Rattle.bosh_due.specs.Generating.{said_reply};
ghost use Rattle.bosh_due.specs.UnderWay.UnderWay.{idle, working};
ghost use Rattle.examples_replies.specs.Kept.{file};
ghost use Rattle.examples_replies.specs.Served.{IsIdle, IsLoadedSo, IsNotedSo, Keeps, KeepsFinding, MayFindMore};

/// A director that finds no entry is loaded without a move, and a restart then finds nothing.
pub fn directors_are_loaded()
    ensures loaded { IsLoadedSo IsIdle [] idle }
    ensures silent { IsLoadedSo IsIdle (said_reply 1 replies.Nothing ∷ []) idle → ⊥ }
    ensures idle { IsLoadedSo IsIdle [] (working (1 ∷ [])) → ⊥ }
    ensures finds_more { IsLoadedSo MayFindMore [] idle → ⊥ }
{}

/// A file that a block keeps is there afterwards, and no other one; a restart finds no more than before.
pub fn blocks_keep_files()
    ensures kept { Keeps [] (file (codes "a") (codes "1") ∷ []) }
    ensures not_kept { Keeps [] [] → ⊥ }
    ensures other { Keeps [] (file (codes "a") (codes "2") ∷ []) → ⊥ }
    ensures found { Keeps (file (codes "b") (codes "2") ∷ []) (file (codes "a") (codes "1") ∷ []) → ⊥ }
    ensures finds_more { KeepsFinding MayFindMore [] (file (codes "a") (codes "1") ∷ []) → ⊥ }
{}

/// A reply is noted under the number of its command, and no more.
pub fn replies_are_noted()
    ensures noted { IsNotedSo (said_reply 1 replies.Nothing ∷ []) idle }
    ensures other_number { IsNotedSo (said_reply 2 replies.Nothing ∷ []) idle → ⊥ }
    ensures under_way { IsNotedSo (said_reply 1 replies.Nothing ∷ []) (working (1 ∷ [])) → ⊥ }
{}
