//! Addresses, as numbers and as texts.
ghost use Rattle.std.specs.Prelude.{◌≡◌, ◌++◌, IfOk, IfErr, OnOk, decimal};
ghost use Rattle.bosh_ip.specs.declared.fault.IpFault.TheVariants.{Memory};
ghost use Rattle.bosh_ip.specs.Address.{SpellsAddr, RefusesAddr, spelling_of_addr};

use crate::fault::IpFault;
use std::alloc::{AllocError, Global};
use std::net::Ipv4Addr;

/// Reads an address in dotted decimal, as `10.0.0.1`. Its number has the first octet in the highest
/// eight bits. Any other text is `Syntax`, one with a sign, a space or a leading zero among them.
pub fn parse_addr(text: &[u8]) -> Result<u32, IpFault>
    ensures read { IfOk result (SpellsAddr text.now) }
    ensures refused { IfErr result (RefusesAddr text.now) }
{
    match Ipv4Addr::parse_ascii(text) {
        Ok(addr) => Ok(addr.to_bits()),
        Err(_) => Err(IpFault::Syntax),
    }
}

/// Adds a number in decimal, as ASCII bytes.
fn add_number(out: &mut Vec<u8>, number: u32) -> Result<(), AllocError>
    ensures { OnOk result (out.new.items ≡ out.old.items ++ decimal number) }
{
    let mut digits = itoa::Buffer::new();
    out.extend_from_slice(digits.format(number).as_bytes())
}

/// Adds an address in dotted decimal, as ASCII bytes.
#[tactic(auto, unfolding(crate::specs::Address::spelling_of_addr))]
pub fn add_addr(out: &mut Vec<u8>, addr: u32) -> Result<(), AllocError>
    ensures { OnOk result (out.new.items ≡ out.old.items ++ spelling_of_addr addr) }
{
    add_number(out, addr >> 24)?;
    out.push(b'.')?;
    add_number(out, (addr >> 16) % 256)?;
    out.push(b'.')?;
    add_number(out, (addr >> 8) % 256)?;
    out.push(b'.')?;
    add_number(out, addr % 256)
}

/// Writes an address in dotted decimal, as ASCII bytes. The only refusal is `Memory`.
pub fn show_addr(alloc: Global, addr: u32) -> Result<Vec<u8>, IpFault>
    ensures shown { IfOk result (λ text. text.items ≡ spelling_of_addr addr) }
    ensures refused { IfErr result (λ e. e ≡ Memory) }
{
    let mut text = Vec::new(alloc);
    add_addr(&mut text, addr)?;
    Ok(text)
}
