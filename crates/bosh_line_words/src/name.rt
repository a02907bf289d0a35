ghost use Rattle.std.specs.Prelude.{◌≡◌, IfErr, IfOk, true};
ghost use Rattle.std.specs.List.{list_all};
ghost use Rattle.bosh_base.specs.Name.{is_name, is_name_byte};
ghost use Rattle.bosh_line_words.specs.declared.fault.LineFault.TheVariants.{Memory};

use crate::{LineFault, Place};
use bosh_base::{Name, OfFault};
use std::alloc::Global;

/// The name of a deployment, a group or an operating system, before it is copied.
#[derive(Clone, Copy)]
pub struct NameWord<'a>(pub &'a [u8]);

fn is_name_byte(byte: u8) -> bool
    ensures { result ≡ is_name_byte byte }
{
    byte.is_ascii_alphanumeric() || byte == b'_' || byte == b'-' || byte == b'.'
}

fn are_name_bytes(bytes: &[u8]) -> bool
    ensures { result ≡ list_all is_name_byte bytes.now }
{
    bytes.iter().all(|byte| is_name_byte(*byte))
}

/// Whether a word is a name.
pub fn is_name(bytes: &[u8]) -> bool
    ensures { result ≡ is_name bytes.now }
{
    match bytes {
        [] => false,
        [first, rest @ ..] => {
            rest.len() < 64 && first.is_ascii_alphanumeric() && are_name_bytes(rest)
        }
    }
}

impl<'a> Place<'a> for NameWord<'a> {
    ghost use Rattle.std.specs.Prelude.{◌≡◌, true};
    ghost use Rattle.bosh_base.specs.Name.{is_name};

    ghost fits = { is_name };

    ghost reads = { λ text name. (name.0.now ≡ text) × (is_name name.0.now ≡ true) };

    fn read(text: &'a [u8]) -> Option<Self> {
        if is_name(text) {
            Some(NameWord(text))
        } else {
            None
        }
    }
}

/// The name that these bytes are.
pub fn name_of(alloc: Global, bytes: &[u8]) -> Result<Name, LineFault>
    requires { is_name bytes.now ≡ true }
    ensures ok { IfOk result (λ name. name ≡ bytes.now) }
    ensures refused { IfErr result (λ fault. fault ≡ Memory) }
{
    match Name::of(alloc, bytes) {
        Ok(name) => Ok(name),
        Err(OfFault::Memory) => Err(LineFault::Memory),
        Err(OfFault::NotOne) => unreachable!(),
    }
}
