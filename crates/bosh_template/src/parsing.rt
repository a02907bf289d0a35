//! Templates from their texts.
ghost use Rattle.std.specs.Prelude.{IfErr, IfOk};
ghost use Rattle.bosh_template.specs.Grammar.{IsRefusal, Spells};

use crate::piece::owned;
use crate::reading::part_at;
use crate::{Template, TemplateFault};
use bosh_base::Seq;
use std::alloc::Global;

/// Reads a template: literal text, and lookups between `<%=` and `%>`. A `<%` that begins no lookup is
/// `Syntax` at its place.
pub fn parse_template(alloc: Global, text: &[u8]) -> Result<Template, TemplateFault>
    ensures read { IfOk result (λ template. Spells text.now template.parts) }
    ensures refused { IfErr result (IsRefusal text.now) }
{
    let mut parts = Vec::new(alloc);
    let mut rest = text;
    while !rest.is_empty() {
        let Some((piece, after)) = part_at(rest) else {
            let place = (text.len() - rest.len()) as u64;
            return Err(TemplateFault::Syntax { place });
        };
        parts.push(owned(alloc, piece)?)?;
        rest = after;
    }
    let parts = Seq::from(parts);
    Ok(Template { parts })
}
