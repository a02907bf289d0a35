ghost use Rattle.std.specs.Prelude.{◌≡◌, false, true, [], ◌∷◌, ◌++◌, List};
ghost use Rattle.bosh_base.specs.CallStep.{takes_effect};
ghost use Rattle.bosh_base.specs.Cloud.{is_disk_there};
ghost use Rattle.bosh_base.specs.declared.digest.Digest.{Digest};
ghost use Rattle.bosh_base.specs.declared.entry.Effect as effect;
ghost use Rattle.bosh_base.specs.declared.entry.Entry.{Entry};
ghost use Rattle.bosh_base.specs.declared.entry.Entry.TheVariants as entries;
ghost use Rattle.bosh_base.specs.declared.entry.Write as write;
ghost use Rattle.bosh_base.specs.declared.key.KeyWork.{KeyWork};
ghost use Rattle.bosh_base.specs.declared.owner.Owner.TheVariants.{Instance};
ghost use Rattle.bosh_base.specs.declared.row.Row.{Row};
ghost use Rattle.laws_effects.specs.Holders.{AreHeldByTheirOwn, JoinsBy};
ghost use Rattle.laws_effects.specs.Orderly.{AreOrderly};
ghost use Rattle.laws_row_facts.specs.Numbers.{IsDoubtItsOwn};
ghost use Rattle.laws_row_facts.specs.Rows.{RowFacts};
ghost use Rattle.bosh_rows.specs.Same.{same_owner};
ghost use Rattle.laws_row_frames.specs.Others.{names_own_machines, spares_disks};

/// What a call of another owner does to the cloud leaves all facts of a row, where the call names machines of its own
/// owner alone, attaches a disk to a machine of the owner of the disk, and deletes no disk of the row.
pub fn anothers_effect_leaves_the_facts_of_a_row()
    ensures { (built : KeyWork → List Digest → Digest) (effects : List Entry) (row : Row) (e : effect.Effect) →
        RowFacts effects row → AreOrderly effects → AreHeldByTheirOwn effects →
        IsDoubtItsOwn (effects ++ entries.Effect e ∷ []) row → same_owner e.owner (Instance row.inst) ≡ false →
        takes_effect built effects e.call ≡ true → JoinsBy effects e.call → names_own_machines effects e ≡ true →
        spares_disks effects row e.call ≡ true → RowFacts (effects ++ entries.Effect e ∷ []) row }
{}

/// What a running job writes to a disk leaves all facts of a row.
pub fn a_write_leaves_the_facts_of_a_row()
    ensures { (built : KeyWork → List Digest → Digest) (effects : List Entry) (row : Row) (w : write.Write) →
        RowFacts effects row → AreOrderly effects → IsDoubtItsOwn effects row → is_disk_there effects w.disk ≡ true →
        RowFacts (effects ++ entries.Write w ∷ []) row }
{}
