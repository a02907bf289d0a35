ghost use Rattle.std.specs.Prelude.{◌≡◌, ℕ, List, map, All, false, true, Ok};
ghost use Rattle.bosh_base.specs.declared.entry.Entry.{Entry};
ghost use Rattle.bosh_entry.specs.Body.{IsEntry, older_spelling, spelling};
ghost use Rattle.bosh_entry.specs.Reading.{IsBytes};
ghost use Rattle.bosh_journal.specs.Director.{is_directors};
ghost use Rattle.bosh_journal.specs.JournalView.{JournalView};
ghost use Rattle.bosh_journal.specs.Kept.{Hold, IsKept};
ghost use Rattle.bosh_journal.specs.Reads.{Reads};
ghost use Rattle.bosh_journal.specs.Runs.{after_run, AllKeep};
ghost use Rattle.bosh_journal.specs.Spelled.{format_of, IsDamagedAt, Spell, SpellIn};
ghost use Rattle.bosh_journal.specs.declared.format.Format.TheVariants.{Older, Present};

use bosh_ports::Keeper;

/// The bodies of a director's entries hold these entries.
pub fn what_is_spelled_is_held()
    ensures { (entries : List Entry) → All IsEntry entries → All (λ entry. is_directors entry ≡ true) entries →
        Hold (map spelling entries) entries }
{}

/// Bodies of bytes that are read are the ones that are written, in either format.
pub fn what_is_held_is_spelled()
    ensures present { (bodies : List (List ℕ)) (entries : List Entry) → All IsBytes bodies →
        SpellIn Present bodies entries → bodies ≡ map spelling entries }
    ensures older { (bodies : List (List ℕ)) (entries : List Entry) → All IsBytes bodies →
        SpellIn Older bodies entries → bodies ≡ map older_spelling entries }
{}

/// Bodies spell one list of entries at most, and none where they are damaged.
pub fn bodies_say_one_thing()
    ensures entries { (bodies : List (List ℕ)) (a b : List Entry) → Spell bodies a → Spell bodies b → a ≡ b }
    ensures damage { (bodies : List (List ℕ)) (entries : List Entry) (place : ℕ) →
        Spell bodies entries → IsDamagedAt bodies place → ⊥ }
{}

/// What a load reads of the store of a journal is what the journal had, however many calls came between.
pub fn what_was_kept_is_loaded<K: Keeper>()
    ensures { (first : JournalView K) (run : List (JournalView K)) (store : K) (entries : List Entry) →
        IsKept K.bodies first → AllKeep K.bodies first run → (after_run first run).is_broken ≡ false →
        Reads K.bodies K.faults K.is_broken (after_run first run).store (Ok entries) store →
        entries ≡ (after_run first run).entries }
{}
