ghost use Rattle.std.specs.Prelude.{◌≡◌};

use bosh_base::Entry;

/// What holds an entry that was made. It stands for the entry's own type, so that a function can be generic in it: to
/// let an entry go, which has fifteen kinds, is dear to prove.
pub(crate) trait Made {
    ghost use Rattle.bosh_base.specs.declared.entry.Entry.{Entry};

    ghost entry_of: { Self → Entry };

    fn entry(&self) -> &Entry
        ensures { result.now ≡ entry_of self.now };
}

impl Made for Entry {
    ghost entry_of = { λ entry. entry };

    fn entry(&self) -> &Entry {
        self
    }
}
