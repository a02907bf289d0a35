ghost use Rattle.std.specs.Prelude.{◌≡◌, ℕ, false, true, [], ◌∷◌, ◌++◌, Option, List};
ghost use Rattle.bosh_base.specs.Cloud.{vm_creation};
ghost use Rattle.bosh_base.specs.declared.entry.Effect as effect;
ghost use Rattle.bosh_base.specs.declared.entry.Entry.{Entry};
ghost use Rattle.bosh_base.specs.declared.entry.Entry.TheVariants as entries;
ghost use Rattle.bosh_base.specs.declared.entry.Loss.{Loss};
ghost use Rattle.bosh_base.specs.declared.entry.Write as write;
ghost use Rattle.bosh_base.specs.declared.snapshot.Orphan.{Orphan};
ghost use Rattle.bosh_history.specs.Known.{Slot, SlotName};
ghost use Rattle.laws_row_facts.specs.Cloud.{is_for_instance};
ghost use Rattle.laws_row_facts.specs.Words.{where_any};
ghost use Rattle.laws_row_frames.specs.Others.{names_own_machines};
ghost use Rattle.bosh_rows.specs.Same.{same_owner};
ghost use Rattle.laws_slots.specs.Orphans.{is_orphan_as_recorded, leaves_orphan};
ghost use Rattle.laws_slots.specs.Slots.{SlotFacts, is_slot_doubt_its_own, owner_of};

/// What a call of another owner does to the cloud leaves all facts of a compile machine, where the call names machines
/// of its own owner alone.
pub fn anothers_effect_leaves_the_facts_of_a_compile_machine()
    ensures { (effects : List Entry) (name : SlotName) (slot : Option Slot) (e : effect.Effect) →
        SlotFacts effects name slot →
        where_any (is_slot_doubt_its_own (effects ++ entries.Effect e ∷ []) name) slot ≡ true →
        same_owner e.owner (owner_of name) ≡ false → names_own_machines effects e ≡ true →
        SlotFacts (effects ++ entries.Effect e ∷ []) name slot }
{}

/// So does what a running job writes to a disk, and a loss of a machine that was made for an instance.
pub fn a_write_or_a_loss_leaves_the_facts_of_a_compile_machine()
    ensures write { (effects : List Entry) (name : SlotName) (slot : Option Slot) (w : write.Write) →
        SlotFacts effects name slot → where_any (is_slot_doubt_its_own effects name) slot ≡ true →
        SlotFacts (effects ++ entries.Write w ∷ []) name slot }
    ensures loss { (effects : List Entry) (name : SlotName) (slot : Option Slot) (loss : Loss) →
        SlotFacts effects name slot → where_any (is_slot_doubt_its_own effects name) slot ≡ true →
        is_for_instance (vm_creation effects loss.vm) ≡ true →
        SlotFacts (effects ++ entries.Lost loss ∷ []) name slot }
{}

/// An orphaned disk stays what its record says where a call does something that is not in doubt of it and does not
/// delete it, where a running job writes to a disk, and where a machine is lost.
pub fn what_others_do_leaves_an_orphaned_disk()
    ensures effect { (effects : List Entry) (d : ℕ) (it : Orphan) (e : effect.Effect) →
        is_orphan_as_recorded effects d it ≡ true → leaves_orphan d it e ≡ true →
        is_orphan_as_recorded (effects ++ entries.Effect e ∷ []) d it ≡ true }
    ensures write { (effects : List Entry) (d : ℕ) (it : Orphan) (w : write.Write) →
        is_orphan_as_recorded effects d it ≡ true →
        is_orphan_as_recorded (effects ++ entries.Write w ∷ []) d it ≡ true }
    ensures loss { (effects : List Entry) (d : ℕ) (it : Orphan) (loss : Loss) →
        is_orphan_as_recorded effects d it ≡ true →
        is_orphan_as_recorded (effects ++ entries.Lost loss ∷ []) d it ≡ true }
{}
