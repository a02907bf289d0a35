ghost use Rattle.std.specs.Prelude.{◌≡◌, ℕ, Bool, false, Some, List};
ghost use Rattle.bosh_base.specs.CallStep.{CallStep};
ghost use Rattle.bosh_base.specs.declared.answer.Answer.{Answer};
ghost use Rattle.bosh_base.specs.declared.call.Call.TheVariants.{Ping};
ghost use Rattle.bosh_base.specs.declared.digest.Digest.{Digest};
ghost use Rattle.bosh_base.specs.declared.entry.Entry.{Entry};
ghost use Rattle.bosh_base.specs.declared.key.KeyWork.{KeyWork};
ghost use Rattle.bosh_base.specs.declared.owner.Owner.TheVariants.{Instance};
ghost use Rattle.bosh_base.specs.declared.row.Row.{Row};
ghost use Rattle.bosh_base.specs.declared.row.Vm.{Vm};
ghost use Rattle.laws_effects.specs.Orderly.{is_taken};
ghost use Rattle.laws_row_facts.specs.Rows.{RowFacts};
ghost use Rattle.laws_rows.specs.Rightful.{done_with};
ghost use Rattle.bosh_rows.specs.After.{after, begun_row};

/// A ping of the machine of a row keeps all facts of the row, however it is answered: where the machine does not
/// answer, the row is lost from then on, also one in doubt of a deletion that had its effect.
pub fn a_ping_keeps_the_facts_of_a_row()
    ensures { (built : KeyWork → List Digest → Digest) (effects : List Entry) (row : Row) (it : Vm) (n : ℕ)
        (dep : List ℕ) (has_effect : Bool) (answer : Answer) → RowFacts effects row → row.vm ≡ Some it →
        is_taken effects n ≡ false → CallStep built effects (Ping it.vm) has_effect answer →
        RowFacts
        (done_with has_effect effects
        (record { n = n; owner = Instance row.inst; dep = dep; call = Ping it.vm }))
        (after n (Ping it.vm) answer (begun_row n (Ping it.vm) row)) }
{}
