//! Text: bytes that are UTF-8.

ghost use Rattle.std.specs.Prelude.{◌≡◌, ◌==◌, ◌↔◌, IfOk, IfSome, IsSome, OnOk, length, string_bytes};
ghost use Rattle.std.specs.Str.{IsUtf8};
ghost use Rattle.bosh_yaml.specs.declared.text.OfFault.TheVariants.{Memory};

use crate::copied::{Copied, CopyFault};
use std::alloc::{AllocError, Global};
use std::marker::Model;
use std::str;

/// Bytes that are UTF-8, seen as the list of them.
#[derive(Drop)]
pub struct Str {
    bytes: Vec<u8>,
}

impl Model for Str {
    ghost use Rattle.std.specs.Prelude.{List, ℕ};
    ghost use Rattle.std.specs.Str.{IsUtf8};

    ghost Value = { List ℕ };

    ghost view = { λ s. s.bytes.items };

    ghost invariant = { λ s. IsUtf8 s.bytes.items };
}

/// Why bytes are no text.
#[derive(Debug, Drop)]
pub enum OfFault {
    /// The bytes are not UTF-8.
    NotOne,
    /// Memory ran out.
    Memory,
}

impl From<AllocError> for OfFault {
    ghost from_gives = { λ _ e. e ≡ Memory };

    fn from(_e: AllocError) -> OfFault {
        OfFault::Memory
    }
}

impl Str {
    /// The text that the bytes are.
    pub fn of(alloc: Global, bytes: &[u8]) -> Result<Str, OfFault>
        ensures ok { IfOk result (λ s. s ≡ bytes.now) }
        ensures utf8 { OnOk result (IsUtf8 bytes.now) }
        ensures not_one { (result ≡ Err OfFault.NotOne) ↔ ¬ IsUtf8 bytes.now }
    {
        match str::from_utf8(bytes) {
            Ok(_) => {
                let bytes = Vec::from_slice(alloc, bytes)?;
                Ok(Str { bytes })
            }
            Err(_) => Err(OfFault::NotOne),
        }
    }

    /// The text that the bytes are, which is not copied; none where they are not UTF-8.
    pub fn from_vec(bytes: Vec<u8>) -> Option<Str>
        ensures value { IfSome result (λ s. s ≡ bytes.items) }
        ensures utf8 { IsSome result ↔ IsUtf8 bytes.items }
    {
        match str::from_utf8(bytes.as_slice()) {
            Ok(_) => Some(Str { bytes }),
            Err(_) => None,
        }
    }

    /// The text of bytes that are UTF-8.
    pub fn from_utf8(alloc: Global, bytes: &[u8]) -> Result<Str, AllocError>
        requires { IsUtf8 bytes.now }
        ensures { IfOk result (λ s. s ≡ bytes.now) }
    {
        let bytes = Vec::from_slice(alloc, bytes)?;
        Ok(Str { bytes })
    }

    /// The text that a string is, which is not copied.
    pub(crate) fn from_string(text: String) -> Str
        ensures { result ≡ string_bytes text }
    {
        Str {
            bytes: text.into_bytes(),
        }
    }

    /// How many bytes the text has.
    pub fn len(&self) -> usize
        ensures { result ≡ length self.now }
    {
        self.bytes.len()
    }

    pub fn is_empty(&self) -> bool
        ensures { result ≡ (length self.now == 0) }
    {
        self.bytes.is_empty()
    }

    pub fn as_bytes(&self) -> &[u8]
        ensures value { result.now ≡ self.now }
        ensures utf8 { IsUtf8 result.now }
    {
        self.bytes.as_slice()
    }
}

impl Copied for Str {
    fn copy(&self, alloc: Global) -> Result<Str, CopyFault> {
        let bytes = Vec::from_slice(alloc, self.bytes.as_slice())?;
        Ok(Str { bytes })
    }
}
