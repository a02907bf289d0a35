ghost use Rattle.std.specs.Prelude.{◌≡◌, ℕ, Bool, false, true, Option, List};
ghost use Rattle.bosh_base.specs.CallStep.{CallStep};
ghost use Rattle.bosh_base.specs.declared.answer.Answer.{Answer};
ghost use Rattle.bosh_base.specs.declared.call.Call.{Call};
ghost use Rattle.bosh_base.specs.declared.digest.Digest.{Digest};
ghost use Rattle.bosh_base.specs.declared.entry.Entry.{Entry};
ghost use Rattle.bosh_base.specs.declared.key.Key.{Key};
ghost use Rattle.bosh_base.specs.declared.key.KeyWork.{KeyWork};
ghost use Rattle.laws_effects.specs.Orderly.{is_taken};
ghost use Rattle.bosh_history.specs.Known.{Slot, SlotName};
ghost use Rattle.bosh_history.specs.Slots.{slot_after, slot_begun};
ghost use Rattle.laws_row_facts.specs.Words.{where_any};
ghost use Rattle.laws_rows.specs.Rightful.{done_with};
ghost use Rattle.laws_slots.specs.Slots.{SlotFacts, is_call_of_slot, is_slot_doubt_its_own, owner_of};

/// A call of a compile machine keeps all facts on its record and the cloud, however it is answered: its machine is the
/// only one there that was made for it, and none is where nothing is recorded.
pub fn one_call_keeps_the_facts_of_a_compile_machine()
    ensures { (built : KeyWork → List Digest → Digest) (effects : List Entry) (name : SlotName) (slot : Option Slot)
        (n : ℕ) (dep : List ℕ) (key : Option Key) (call : Call) (has_effect : Bool) (answer : Answer) →
        SlotFacts effects name slot → where_any (is_slot_doubt_its_own effects name) slot ≡ true →
        is_call_of_slot call slot ≡ true → is_taken effects n ≡ false →
        CallStep built effects call has_effect answer →
        SlotFacts
        (done_with has_effect effects (record { n = n; owner = owner_of name; dep = dep; call = call })) name
        (slot_after n call answer (slot_begun n call dep key slot)) }
{}
