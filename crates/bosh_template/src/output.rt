//! The text of a template while it is written.
ghost use Rattle.std.specs.Prelude.{[], List, ℕ, Ok, IsOkUnless, OnOk};
ghost use Rattle.bosh_template.specs.Answer.{IsAnswer};
ghost use Rattle.bosh_template.specs.Output.{Holds, Grows};
ghost use Rattle.bosh_template.specs.Rendering.{limited};
ghost use Rattle.bosh_template.specs.declared.fault.TemplateFault.TheVariants.{Memory};

use crate::TemplateFault;
use bosh_base::Text;
use std::alloc::Global;

// The greatest length of a text, in bytes.
const MAX_BYTES: usize = 1_048_576;

/// A text that is kept while it is within the limit.
#[derive(Drop)]
pub(crate) enum Output {
    Within(Vec<u8>),
    Over,
}

impl Output {
    pub(crate) fn new(alloc: Global) -> Output
        ensures { Holds result [] }
    {
        Output::Within(Vec::new(alloc))
    }

    /// Adds bytes at the end.
    pub(crate) fn add(&mut self, bytes: &[u8]) -> Result<(), TemplateFault>
        ensures ok { OnOk result (Grows self.old self.new bytes.now) }
        ensures err { IsOkUnless result Memory }
    {
        if let Output::Within(text) = self {
            if bytes.len() <= MAX_BYTES.saturating_sub(text.len()) {
                text.extend_from_slice(bytes)?;
            } else {
                *self = Output::Over;
            }
        }
        Ok(())
    }

    /// The whole text.
    pub(crate) fn into_text(self) -> Result<Text, TemplateFault>
        ensures { (text : List ℕ) → Holds self text → IsAnswer result (limited (Ok text)) }
    {
        match self {
            Output::Within(text) => Ok(Text::from(text)),
            Output::Over => Err(TemplateFault::Limit),
        }
    }
}
