//! The open calls of a site.
ghost use Rattle.std.specs.Prelude.{List, None, Option, eqb, length, ℕ, ◌++◌, ◌∷◌, []};
ghost use Rattle.bosh_base.specs.declared.entry.Begin.{Begin};
ghost use Rattle.bosh_base.specs.declared.entry.Entry.TheVariants as entries;
ghost use Rattle.bosh_base.specs.declared.moves.Did as did;
ghost use Rattle.bosh_base.specs.declared.moves.Move.{Move};
ghost use Rattle.bosh_base.specs.declared.moves.Move.TheVariants.{Did};
ghost use Rattle.bosh_calls.specs.Calls.{with_begun, with_performed, without};
ghost use Rattle.bosh_calls.specs.declared.calls.OpenCall as site;
ghost use Rattle.bosh_history.specs.Moments.{OpenCall, calls_after, performed_call};
ghost use Rattle.bosh_history.specs.Words.{at};
ghost use Rattle.laws_sites.specs.Calls.{AreCalls};

/// They stay those of the moment as one begins, is performed, and ends.
pub fn open_calls_are_those_of_the_moment()
    ensures begun { (moves : List Move) (unsettled : List site.OpenCall) (calls : ℕ → Option OpenCall) (b : Begin)
        → AreCalls moves unsettled calls
        → AreCalls moves (with_begun b.n unsettled) (calls_after (entries.Begin b) calls) }
    ensures performed { (moves : List Move) (unsettled : List site.OpenCall) (calls : ℕ → Option OpenCall) (d : did.Did)
        → AreCalls moves unsettled calls
        → AreCalls (moves ++ Did d ∷ []) (with_performed d.n (length moves) unsettled)
        (at eqb d.n (performed_call d (calls d.n)) calls) }
    ensures ended { (moves : List Move) (unsettled : List site.OpenCall) (calls : ℕ → Option OpenCall) (n : ℕ)
        → AreCalls moves unsettled calls → AreCalls moves (without n unsettled) (at eqb n None calls) }
{}
