ghost use Rattle.std.specs.Prelude.{◌≡◌, ℕ, Bool, false, true, List};
ghost use Rattle.bosh_base.specs.CallStep.{CallStep};
ghost use Rattle.bosh_base.specs.declared.answer.Answer.{Answer};
ghost use Rattle.bosh_base.specs.declared.call.Call.{Call};
ghost use Rattle.bosh_base.specs.declared.digest.Digest.{Digest};
ghost use Rattle.bosh_base.specs.declared.entry.Entry.{Entry};
ghost use Rattle.bosh_base.specs.declared.key.KeyWork.{KeyWork};
ghost use Rattle.bosh_base.specs.declared.owner.Owner.TheVariants.{Disk};
ghost use Rattle.bosh_base.specs.declared.snapshot.Orphan.{Orphan};
ghost use Rattle.laws_effects.specs.Orderly.{is_taken};
ghost use Rattle.bosh_history.specs.Calls.{orphan_begun};
ghost use Rattle.laws_row_facts.specs.Words.{where_any};
ghost use Rattle.laws_rows.specs.Rightful.{done_with};
ghost use Rattle.laws_slots.specs.Orphans.{is_call_of_orphan, is_orphan_as_recorded, orphan_answered};

/// An orphaned disk that is what its record says is so after each of its calls, however it is answered: its record goes
/// where the disk is not there, and is in doubt of a deletion that failed.
pub fn one_call_keeps_an_orphaned_disk()
    ensures { (built : KeyWork → List Digest → Digest) (effects : List Entry) (d : ℕ) (it : Orphan) (n : ℕ)
        (dep : List ℕ) (call : Call) (has_effect : Bool) (answer : Answer) →
        is_orphan_as_recorded effects d it ≡ true → is_call_of_orphan d call it ≡ true → is_taken effects n ≡ false →
        CallStep built effects call has_effect answer →
        where_any
        (is_orphan_as_recorded
        (done_with has_effect effects (record { n = n; owner = Disk d; dep = dep; call = call })) d)
        (orphan_answered call answer (orphan_begun n call it)) ≡ true }
{}
