ghost use Rattle.std.specs.Prelude.{[]};

use bosh_lock::Chronicle;

/// A value to which nothing ever happens.
#[derive(Drop)]
pub struct Quiet;

impl Chronicle for Quiet {
    type Item = ();

    ghost items = { λ _. [] };

    fn length(&self) -> u64 {
        0
    }
}
