//! Lines of items.
ghost use Rattle.std.specs.Prelude.{◌≡◌, ◌&&◌, Bool, List, find, not};
ghost use Rattle.std.specs.List.{list_any};
ghost use Rattle.bosh_base.specs.declared.inst.Inst.{Inst};
ghost use Rattle.bosh_claim.specs.Noted.{first_of};
ghost use Rattle.bosh_claim.specs.Phase.{is_finished};
ghost use Rattle.bosh_work.specs.declared.line.Line.{Line};
ghost use Rattle.laws_stands.specs.LineStands.{LineStands};

/// The first free item of a line is the first that is left and on which nobody works, and the line is finished where none
/// is left.
pub fn a_line_has_its_first_item()
    ensures first { (items : List Inst) (left idle : Inst → Bool) (line : Line Inst) → LineStands items left idle line
        → first_of line ≡ find (λ x. left x && idle x) items }
    ensures finished { (items : List Inst) (left idle : Inst → Bool) (line : Line Inst)
        → LineStands items left idle line
        → is_finished line.queue ≡ not (list_any left items) }
{}
