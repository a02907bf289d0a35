ghost use Rattle.std.specs.Prelude.{◌≡◌};
ghost use Rattle.bosh_journal.specs.Spelled.{format_with};

/// The format of the bodies of a store.
#[derive(Clone, Copy, Debug, PartialEq, Eq)]
pub(crate) enum Format {
    /// It is read, and its list then gives way to one in the present format.
    Older,
    Present,
}

impl Format {
    /// The format that a body begins with.
    pub(crate) fn of_body(body: &[u8]) -> Format
        ensures { result ≡ format_with body.now }
    {
        match body.first() {
            Some(1) => Format::Older,
            _ => Format::Present,
        }
    }
}
