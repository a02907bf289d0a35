ghost use Rattle.std.specs.Prelude.{◌≡◌, true, [], ◌∷◌, ◌++◌, List};
ghost use Rattle.bosh_base.specs.Cloud.{is_vm_there};
ghost use Rattle.bosh_base.specs.declared.digest.Digest.{Digest};
ghost use Rattle.bosh_base.specs.declared.entry.Entry.{Entry};
ghost use Rattle.bosh_base.specs.declared.entry.Entry.TheVariants.{Lost};
ghost use Rattle.bosh_base.specs.declared.entry.Loss.{Loss};
ghost use Rattle.bosh_base.specs.declared.key.KeyWork.{KeyWork};
ghost use Rattle.bosh_base.specs.declared.row.Row.{Row};
ghost use Rattle.laws_effects.specs.Holders.{AreHeldByTheirOwn};
ghost use Rattle.laws_effects.specs.Orderly.{AreOrderly};
ghost use Rattle.laws_row_facts.specs.Numbers.{IsDoubtItsOwn};
ghost use Rattle.laws_row_facts.specs.Rows.{RowFacts};

/// A loss of a machine that is there, whole or of its agent, leaves all facts of a row: of the recorded machine, of the
/// one that the call in doubt made, and of any other.
pub fn a_loss_leaves_the_facts_of_a_row()
    ensures { (built : KeyWork → List Digest → Digest) (effects : List Entry) (row : Row) (loss : Loss) →
        RowFacts effects row → AreOrderly effects → AreHeldByTheirOwn effects → IsDoubtItsOwn effects row →
        is_vm_there effects loss.vm ≡ true → RowFacts (effects ++ Lost loss ∷ []) row }
{}
