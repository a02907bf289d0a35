//! Things that have names.
ghost use Rattle.std.specs.Prelude.{◌≡◌};

use bosh_base::{JobSpec, PackageSpec, Prop, PropSpec, Text};

/// A thing that has a name.
pub trait Named {
    ghost use Rattle.std.specs.Prelude.{List, ℕ};

    ghost name_of: { Self → List ℕ };

    /// The bytes of its name.
    fn name(&self) -> &[u8]
        ensures { result.now ≡ name_of self.now };
}

/// A text is its own name.
impl Named for Text {
    ghost name_of = { λ text. text };

    fn name(&self) -> &[u8] {
        self.as_slice()
    }
}

impl Named for JobSpec {
    ghost name_of = { λ job. job.name };

    fn name(&self) -> &[u8] {
        self.name.as_bytes()
    }
}

impl Named for PackageSpec {
    ghost name_of = { λ spec. spec.name };

    fn name(&self) -> &[u8] {
        self.name.as_bytes()
    }
}

impl Named for PropSpec {
    ghost name_of = { λ spec. spec.name };

    fn name(&self) -> &[u8] {
        self.name.as_slice()
    }
}

impl Named for Prop {
    ghost name_of = { λ prop. prop.name };

    fn name(&self) -> &[u8] {
        self.name.as_slice()
    }
}
