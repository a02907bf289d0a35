ghost use Rattle.std.specs.Prelude.{◌≡◌};
ghost use Rattle.bosh_transcript.specs.Extents.{extent_of};

use bosh_lines::{Command, LineFault};

/// What a command is answered with.
#[derive(Clone, Copy, Debug, PartialEq, Eq)]
pub enum Extent {
    /// Its reply.
    Single,
    /// Its reply, and those of the next commands, which it carries out at once.
    Together { count: u64 },
    /// The replies of the four commands that it stands for, and its own.
    Generated { instances: u64 },
}

/// What a line is answered with.
pub fn extent_of(asked: &Result<Command, LineFault>) -> Extent
    ensures { result ≡ extent_of asked.now }
{
    match asked {
        Ok(Command::Together { count }) => Extent::Together { count: *count },
        Ok(Command::Generate { instances }) => Extent::Generated {
            instances: *instances,
        },
        _ => Extent::Single,
    }
}
