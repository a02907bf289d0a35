ghost use Rattle.std.specs.Prelude.{◌≡◌, Some, length, true};
ghost use Rattle.bosh_base.specs.Name.{is_name};
ghost use Rattle.hex.specs.Hex.{encode_lower};
ghost use Rattle.cpi_wire.specs.Reading.{Gives, only};
ghost use Rattle.cpi_wire.specs.Text.{bytes_in, digest_in, is_text};

use crate::fault::WireFault;
use crate::wired::Wired;
use crate::write::{write_quoted, write_text};
use bosh_base::{Digest, Name, OfFault, Text};
use serde_json::Value;
use std::alloc::Global;

/// The bytes that the characters of a text are the numbers of.
fn bytes_in(alloc: Global, text: &str) -> Result<Text, WireFault>
    ensures { Gives result (bytes_in text.now) }
{
    let mut bytes = Vec::new(alloc);
    for c in text.chars() {
        let code = c as u32;
        if code > 255 {
            return Err(WireFault::NotAValue);
        }
        bytes.push(code as u8)?;
    }
    Ok(Text::from(bytes))
}

impl Wired for Text {
    ghost use Rattle.cpi_wire.specs.Text.{text_data, is_text, text_from};

    ghost image = { text_data };

    ghost fits = { is_text };

    ghost reading = { text_from };

    fn write(&self, out: &mut Vec<u8>) -> Result<(), WireFault> {
        write_text(self.as_slice(), out)
    }

    fn read(alloc: Global, value: &Value) -> Result<Self, WireFault> {
        match value.as_str() {
            Some(text) => bytes_in(alloc, text),
            None => Err(WireFault::NotAValue),
        }
    }
}

/// The name of these bytes.
pub fn name_of(alloc: Global, bytes: &[u8]) -> Result<Name, WireFault>
    ensures { Gives result (only is_name (Some bytes.now)) }
{
    match Name::of(alloc, bytes) {
        Ok(name) => Ok(name),
        Err(OfFault::NotOne) => Err(WireFault::NotAValue),
        Err(OfFault::Memory) => Err(WireFault::Memory),
    }
}

impl Wired for Name {
    ghost use Rattle.bosh_base.specs.Name.{is_name};
    ghost use Rattle.cpi_wire.specs.Text.{text_data, name_from};

    ghost image = { text_data };

    ghost fits = { is_name };

    ghost reading = { name_from };

    fn write(&self, out: &mut Vec<u8>) -> Result<(), WireFault> {
        write_text(self.as_bytes(), out)
    }

    fn read(alloc: Global, value: &Value) -> Result<Self, WireFault> {
        let text = Text::read(alloc, value)?;
        name_of(alloc, text.as_slice())
    }
}

// The digits of 32 bytes, in lower case.
#[tactic(auto, using(crate::proofs::TextLemmas::bytes_fit))]
fn digits_of(bytes: &[u8]) -> [u8; 64]
    requires { length bytes.now ≡ 32 }
    ensures digits { result ≡ encode_lower bytes.now }
    ensures fits { is_text bytes.now ≡ true }
{
    let mut digits = [0u8; 64];
    let _ = hex::encode_to_slice(bytes, &mut digits);
    digits
}

/// The digest that a text spells by its digits in lower case.
fn digest_in(text: &str) -> Option<Digest>
    ensures { result ≡ digest_in text.now }
{
    let mut bytes = [0u8; 32];
    if hex::decode_to_slice(text, &mut bytes).is_err() {
        return None;
    }
    if digits_of(&bytes).as_slice() == text.as_bytes() {
        Some(Digest(bytes))
    } else {
        None
    }
}

impl Wired for Digest {
    ghost use Rattle.cpi_wire.specs.Text.{digest_data, is_digest, digest_from};

    ghost image = { digest_data };

    ghost fits = { is_digest };

    ghost reading = { digest_from };

    fn write(&self, out: &mut Vec<u8>) -> Result<(), WireFault> {
        write_quoted(&digits_of(&self.0), out)
    }

    fn read(_alloc: Global, value: &Value) -> Result<Self, WireFault> {
        let Some(text) = value.as_str() else {
            return Err(WireFault::NotAValue);
        };
        match digest_in(text) {
            Some(digest) => Ok(digest),
            None => Err(WireFault::NotAValue),
        }
    }
}
