ghost use Rattle.std.specs.Prelude.{◌≡◌};
ghost use Rattle.bosh_journal.specs.Director.{is_directors, is_snapshot};

use bosh_base::Entry;

/// Whether an entry may stand in the store of a director. What was done to the cloud stands in the cloud's store.
pub fn is_directors(entry: &Entry) -> bool
    ensures { result ≡ is_directors entry.now }
{
    !matches!(entry, Entry::Effect(_) | Entry::Write(_) | Entry::Lost(_))
}

/// Whether an entry stands for a whole list.
pub fn is_snapshot(entry: &Entry) -> bool
    ensures { result ≡ is_snapshot entry.now }
{
    matches!(entry, Entry::Snapshot(_))
}
