ghost use Rattle.std.specs.Prelude.{◌∷◌, []};
ghost use Rattle.examples_replies.specs.AtOnce.{AreOpenedSo, openings};
ghost use Rattle.examples_replies.specs.Others.{runs};

/// Of lines that are taken together each opens its task, in order, and one that opens none is refused at once.
pub fn tasks_open_in_order()
    ensures { AreOpenedSo openings (runs 5 1 ∷ []) }
{}
