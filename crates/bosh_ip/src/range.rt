//! Ranges of addresses.
ghost use Rattle.std.specs.Prelude.{◌≤◌, IfOk, IfErr};
ghost use Rattle.bosh_ip.specs.Range.{SpellsSpan, RefusesRange};

use crate::address::parse_addr;
use crate::bytes::{split_once, trim_end, trim_start};
use crate::fault::IpFault;

/// The addresses from the first to the last, both among them.
#[derive(Clone, Copy, Debug, PartialEq, Eq)]
pub struct Span {
    pub first: u32,
    pub last: u32,
}

/// Reads a range: one address, or two with a dash between them, which may have spaces on each side, as
/// `10.0.0.2 - 10.0.0.9`. Where the second is less than the first, the answer is `Backwards`; each
/// other text is `Syntax`.
pub fn parse_range(text: &[u8]) -> Result<Span, IpFault>
    ensures read { IfOk result (λ span. SpellsSpan text.now span × (span.first ≤ span.last)) }
    ensures refused { IfErr result (RefusesRange text.now) }
{
    let Some((before, after)) = split_once(text, b'-') else {
        let addr = parse_addr(text)?;
        return Ok(Span {
            first: addr,
            last: addr,
        });
    };
    let first = parse_addr(trim_end(before))?;
    let last = parse_addr(trim_start(after))?;
    if last < first {
        return Err(IpFault::Backwards);
    }
    Ok(Span { first, last })
}
