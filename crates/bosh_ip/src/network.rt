//! Networks in the notation of classless routing, an address and the length of its prefix.
ghost use Rattle.std.specs.Prelude.{◌≡◌, ℕ, ◌+◌, ◌-◌, ◌^◌, ◌<◌, ◌≤◌, ◌↔◌, IsTrue, IfOk, IfErr, MatchOption};
ghost use Rattle.std.specs.Int.{IsInRange};
ghost use Rattle.bosh_ip.specs.Network.{IsTwoDigits, SpellsBits, SpellsCidr, IsNetwork, RefusesCidr, IsInNetwork};

use crate::address::parse_addr;
use crate::bytes::split_once;
use crate::fault::IpFault;

/// A network: its first address, and how many of the highest bits its addresses share, 0 to 32.
#[derive(Clone, Copy, Debug, PartialEq, Eq)]
pub struct Cidr {
    pub first: u32,
    pub bits: u8,
}

// The number of addresses in a network with a prefix of this many bits.
fn network_size(bits: u8) -> u64
    requires { bits ≤ 32 }
    ensures { result ≡ 2 ^ (32 - bits) }
{
    1u64 << (32 - bits)
}

// Reads a digit.
fn parse_digit(byte: u8) -> Option<u8>
    ensures { MatchOption result (¬ IsInRange 48 57 byte) (λ n. (n < 10) × (byte ≡ 48 + n)) }
{
    match byte {
        b'0'..=b'9' => Some(byte - b'0'),
        _ => None,
    }
}

// Reads two digits, of which the first is not zero, that are at most 32.
fn parse_two_digits(tens: u8, ones: u8) -> Option<u8>
    ensures { MatchOption result ((n : ℕ) → ¬ IsTwoDigits tens ones n) (IsTwoDigits tens ones) }
{
    if tens < b'1' || b'3' < tens || ones < b'0' || b'9' < ones {
        return None;
    }
    let bits = 10 * (tens - b'0') + (ones - b'0');
    if bits <= 32 { Some(bits) } else { None }
}

// Reads the length of a prefix, a decimal from 0 to 32 without leading zeros.
fn parse_bits(text: &[u8]) -> Option<u8>
    ensures { MatchOption result ((n : ℕ) → ¬ SpellsBits text.now n) (SpellsBits text.now) }
{
    match text {
        [ones] => parse_digit(*ones),
        [tens, ones] => parse_two_digits(*tens, *ones),
        _ => None,
    }
}

/// Reads a network, an address and after a slash the length of the prefix, as `10.0.0.0/24`. The
/// length is a decimal from 0 to 32 without leading zeros. A text that is a network in form, but whose
/// address has a bit set past the prefix, is `HostBits`; each other text is `Syntax`.
pub fn parse_cidr(text: &[u8]) -> Result<Cidr, IpFault>
    ensures read { IfOk result (λ net. SpellsCidr text.now net × IsNetwork net) }
    ensures refused { IfErr result (RefusesCidr text.now) }
{
    let Some((addr, prefix)) = split_once(text, b'/') else {
        return Err(IpFault::Syntax);
    };
    let first = parse_addr(addr)?;
    let Some(bits) = parse_bits(prefix) else {
        return Err(IpFault::Syntax);
    };
    if u64::from(first) % network_size(bits) != 0 {
        return Err(IpFault::HostBits);
    }
    Ok(Cidr { first, bits })
}

/// Whether an address is of a network.
pub fn contains(net: Cidr, addr: u32) -> bool
    requires { net.bits ≤ 32 }
    ensures { IsTrue result ↔ IsInNetwork net addr }
{
    let size = network_size(net.bits);
    u64::from(addr) / size == u64::from(net.first) / size
}
