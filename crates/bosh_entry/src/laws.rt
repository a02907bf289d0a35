ghost use Rattle.std.specs.Prelude.{◌≡◌, ℕ, List, Some};
ghost use Rattle.bosh_base.specs.declared.entry.Entry.{Entry};
ghost use Rattle.bosh_entry.specs.Reading.{IsBytes};
ghost use Rattle.bosh_entry.specs.Body.{spelling, IsEntry, entry_of, older_spelling, IsOlderEntry, older_entry_of};

/// What is written is read again: the entry that the spelling of an entry spells is that entry.
pub fn what_is_written_is_read()
    ensures { (entry : Entry) → IsEntry entry → entry_of (spelling entry) ≡ Some entry }
{}

/// A body that is read is the one that is written.
pub fn what_is_read_is_written()
    ensures { (body : List ℕ) (entry : Entry) → IsBytes body → entry_of body ≡ Some entry → IsEntry entry × (body ≡ spelling entry) }
{}

/// Two entries with one spelling are equal.
pub fn one_entry_for_a_body()
    ensures { (a b : Entry) → IsEntry a → IsEntry b → spelling a ≡ spelling b → a ≡ b }
{}

/// The older format spells each entry that it has in one way, and that spelling is read as the entry.
pub fn older_bodies_are_read()
    ensures { (entry : Entry) → IsOlderEntry entry → older_entry_of (older_spelling entry) ≡ Some entry }
{}

/// A body that is read in the older format is the older spelling of its entry.
pub fn what_is_read_is_older()
    ensures { (body : List ℕ) (entry : Entry) → IsBytes body → older_entry_of body ≡ Some entry → IsOlderEntry entry × (body ≡ older_spelling entry) }
{}
