ghost use Rattle.std.specs.Prelude.{◌≡◌, ◌≢◌, ◌↔◌, IsTrue};
ghost use Rattle.bosh_book.specs.Running.{is_running};
ghost use Rattle.bosh_book.specs.declared.standing.Standing.TheVariants as standings;

/// Whether the book goes on.
#[derive(Clone, Copy, Debug, PartialEq, Eq)]
pub enum Standing {
    /// Its entries were read, and no call was given up since.
    Running,
    /// A call was given up.
    Abandoned,
    /// Its entries are to be read: that was refused, or has not come yet.
    Unread,
}

impl Standing {
    pub(crate) fn is_running(self) -> bool
        ensures { result ≡ is_running self }
    {
        matches!(self, Standing::Running)
    }

    pub(crate) fn is_read(self) -> bool
        ensures { IsTrue result ↔ (self ≢ standings.Unread) }
    {
        !matches!(self, Standing::Unread)
    }
}
