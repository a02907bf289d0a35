//! What a call came to.
use crate::CaseFault;
use crate::bytes::bytes_of;
use bosh_yaml::Node;
use std::alloc::Global;
use std::fmt;

/// What a call came to: what it gave, or in which words it refused what was given.
#[derive(Drop)]
pub struct Outcome {
    is_refusal: bool,
    text: Vec<u8>,
}

impl Outcome {
    /// The call gave this text.
    pub fn gives(text: Vec<u8>) -> Self {
        let is_refusal = false;
        Outcome { is_refusal, text }
    }

    /// The call gave a value of this text.
    pub fn shown<T: fmt::Display>(alloc: Global, value: &T) -> Result<Self, CaseFault> {
        let text = format!(in alloc; "{value}")?;
        Ok(Outcome::gives(text.into_bytes()))
    }

    /// The call refused what was given, in these words.
    pub fn refuses(text: Vec<u8>) -> Self {
        let is_refusal = true;
        Outcome { is_refusal, text }
    }

    /// Whether the case states this outcome.
    pub fn is_stated(&self, alloc: Global, case: &Node) -> Result<bool, CaseFault> {
        match case.find(self.key().as_bytes()) {
            Some(stated) => Ok(bytes_of(alloc, stated)? == self.text),
            None => Ok(false),
        }
    }

    /// The key under which a case states it.
    pub fn key(&self) -> &'static str {
        if self.is_refusal { "refuses" } else { "gives" }
    }

    pub fn text(&self) -> &[u8] {
        self.text.as_slice()
    }
}
