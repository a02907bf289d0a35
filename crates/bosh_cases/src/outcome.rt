//! What a call came to.
use crate::CaseFault;
use crate::bytes::bytes_of;
use bosh_yaml::{Node, canon};
use std::alloc::{AllocError, Global};

/// How a case states an outcome.
#[derive(Clone, Copy, Debug)]
enum Kind {
    /// As bytes that the call gives.
    Bytes,
    /// As a value that it gives.
    Json,
    /// As the words of a refusal.
    Refusal,
}

/// What a call came to: bytes, a value, or a refusal.
#[derive(Drop)]
pub struct Outcome {
    kind: Kind,
    text: Vec<u8>,
}

impl Outcome {
    /// The call gave these bytes.
    pub fn bytes(text: Vec<u8>) -> Self {
        let kind = Kind::Bytes;
        Outcome { kind, text }
    }

    /// The call gave the value of which this is the canonical text.
    pub fn json(text: Vec<u8>) -> Self {
        let kind = Kind::Json;
        Outcome { kind, text }
    }

    /// The call gave this value.
    pub fn node(alloc: Global, node: &Node) -> Result<Self, CaseFault> {
        Ok(Outcome::json(canon(alloc, node)?))
    }

    /// The call gave this truth value.
    pub fn flag(alloc: Global, flag: bool) -> Result<Self, CaseFault> {
        Outcome::node(alloc, &Node::Bool(flag))
    }

    /// The call gave this text.
    pub fn word(alloc: Global, word: &str) -> Result<Self, AllocError> {
        Ok(Outcome::bytes(Vec::from_slice(alloc, word.as_bytes())?))
    }

    /// The call refused what was given, in these words.
    pub fn refusal(text: Vec<u8>) -> Self {
        let kind = Kind::Refusal;
        Outcome { kind, text }
    }

    /// The call refused what was given, in this word.
    pub fn refused(alloc: Global, word: &str) -> Result<Self, AllocError> {
        Ok(Outcome::refusal(Vec::from_slice(alloc, word.as_bytes())?))
    }

    /// Whether the case states this outcome.
    pub fn is_stated(&self, alloc: Global, case: &Node) -> Result<bool, CaseFault> {
        let Some(node) = case.find(self.key().as_bytes()) else {
            return Ok(false);
        };
        let stated = match self.kind {
            Kind::Json => canon(alloc, node)?,
            Kind::Bytes | Kind::Refusal => bytes_of(alloc, node)?,
        };
        Ok(stated == self.text)
    }

    /// The key under which a case states it.
    pub fn key(&self) -> &'static str {
        match self.kind {
            Kind::Bytes | Kind::Json => "gives",
            Kind::Refusal => "refuses",
        }
    }

    /// Its bytes, its canonical text, or its words.
    pub fn text(&self) -> &[u8] {
        self.text.as_slice()
    }
}
