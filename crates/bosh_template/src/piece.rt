//! Parts of a template, as they are read.
ghost use Rattle.std.specs.Prelude.{◌≡◌, IfOk, IsOkUnless};
ghost use Rattle.std.specs.Option.{option_copied};
ghost use Rattle.bosh_template.specs.Piece.{part};
ghost use Rattle.bosh_template.specs.declared.fault.TemplateFault.TheVariants.{Memory};

use crate::{Part, SpecWord, TemplateFault};
use bosh_base::Text;
use std::alloc::Global;

/// A part of a template, where it stands in the template's text.
#[derive(Clone, Copy)]
pub(crate) enum Piece<'a> {
    Literal(&'a [u8]),
    Own {
        name: &'a [u8],
        fallback: Option<&'a [u8]>,
    },
    Linked {
        link: &'a [u8],
        name: &'a [u8],
        fallback: Option<&'a [u8]>,
    },
    OneAddr {
        link: &'a [u8],
        index: u32,
    },
    AllAddrs {
        link: &'a [u8],
        between: &'a [u8],
    },
    Word(SpecWord),
}

fn text(alloc: Global, bytes: &[u8]) -> Result<Text, TemplateFault>
    ensures ok { IfOk result (λ text. text ≡ bytes.now) }
    ensures err { IsOkUnless result Memory }
{
    Ok(Text::from(Vec::from_slice(alloc, bytes)?))
}

fn optional_text(alloc: Global, bytes: Option<&[u8]>) -> Result<Option<Text>, TemplateFault>
    ensures ok { IfOk result (λ text. text ≡ option_copied bytes.entry) }
    ensures err { IsOkUnless result Memory }
{
    match bytes {
        Some(bytes) => Ok(Some(text(alloc, bytes)?)),
        None => Ok(None),
    }
}

/// The part that a piece is, with texts of its own.
pub(crate) fn owned(alloc: Global, piece: Piece) -> Result<Part, TemplateFault>
    ensures ok { IfOk result (λ owned. owned ≡ part piece.entry) }
    ensures err { IsOkUnless result Memory }
{
    match piece {
        Piece::Literal(bytes) => Ok(Part::Literal(text(alloc, bytes)?)),
        Piece::Own { name, fallback } => {
            let name = text(alloc, name)?;
            let fallback = optional_text(alloc, fallback)?;
            Ok(Part::Own { name, fallback })
        }
        Piece::Linked {
            link,
            name,
            fallback,
        } => {
            let link = text(alloc, link)?;
            let name = text(alloc, name)?;
            let fallback = optional_text(alloc, fallback)?;
            Ok(Part::Linked {
                link,
                name,
                fallback,
            })
        }
        Piece::OneAddr { link, index } => {
            let link = text(alloc, link)?;
            Ok(Part::OneAddr { link, index })
        }
        Piece::AllAddrs { link, between } => {
            let link = text(alloc, link)?;
            let between = text(alloc, between)?;
            Ok(Part::AllAddrs { link, between })
        }
        Piece::Word(word) => Ok(Part::Word(word)),
    }
}
