ghost use Rattle.std.specs.Prelude.{◌≡◌, List, length};

/// A value that keeps a list which only grows, such as a history.
pub trait Chronicle {
    /// What the list is of.
    type Item;

    ghost items: { Self → List Self.Item };

    /// How long the list is.
    fn length(&self) -> u64
        ensures { result ≡ length (items self.now) };
}
