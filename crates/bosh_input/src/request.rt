ghost use Rattle.std.specs.Prelude.{◌≡◌, [], Err, length, nat_lt};
ghost use Rattle.std.specs.Bool.{MatchBool};
ghost use Rattle.bosh_line_words.specs.declared.fault.LineFault.TheVariants.{TooLarge};
ghost use Rattle.bosh_input.specs.Ended.{bounded_request};

use bosh_base::Text;
use bosh_lines::{Command, LineFault};
use std::alloc::Global;

/// A command of the input.
#[derive(Drop)]
pub struct Request {
    /// What its line asks for, or why it is no command.
    pub asked: Result<Command, LineFault>,
    /// The lines of its block, where it keeps a file.
    pub block: Text,
}

// The most bytes of a block.
const MOST_BLOCK: usize = 1_048_576;

// A value and a block, where the block has not too many bytes.
fn within<T: Drop>(
    alloc: Global,
    value: Result<T, LineFault>,
    block: Text,
) -> (Result<T, LineFault>, Text)
    ensures { MatchBool (nat_lt 1048576 (length block)) ((result.0 ≡ Err TooLarge) × (result.1 ≡ [])) ((result.0 ≡ value) × (result.1 ≡ block)) }
{
    if block.len() > MOST_BLOCK {
        (Err(LineFault::TooLarge), Text::new(alloc))
    } else {
        (value, block)
    }
}

// The command, where its block has not too many bytes.
pub(crate) fn judged(alloc: Global, request: Request) -> Request
    ensures { result ≡ bounded_request request }
{
    let Request { asked, block } = request;
    let (asked, block) = within(alloc, asked, block);
    Request { asked, block }
}
