//! The links of goals in words.
use crate::pieces::{push_addr, push_joint};
use bosh_base::{Addr, Offer, Prop, Seq, Setting, Text, Tie};
use bosh_cases::push_parts;
use std::alloc::AllocError;

/// Adds a word, and a line for a tie: the consumer, the provider, and the type.
pub fn push_tie(text: &mut Vec<u8>, word: &[u8], tie: &Tie) -> Result<(), AllocError> {
    push_joint(text, word, &tie.consumer)?;
    push_joint(text, b" ", &tie.provider)?;
    push_parts(text, &[b" ", tie.kind.as_slice(), b"\n"])
}

/// Adds a line for each tie.
pub(crate) fn push_ties(text: &mut Vec<u8>, ties: &Seq<Tie>) -> Result<(), AllocError> {
    for tie in ties {
        push_tie(text, b"tie ", tie)?;
    }
    Ok(())
}

fn push_addrs(text: &mut Vec<u8>, addrs: &Seq<Addr>) -> Result<(), AllocError> {
    for addr in addrs {
        push_addr(text, b" at ", *addr)?;
    }
    Ok(())
}

fn push_listed(text: &mut Vec<u8>, names: &Seq<Text>) -> Result<(), AllocError> {
    for name in names {
        push_parts(text, &[b" lists ", name.as_slice()])?;
    }
    Ok(())
}

// A list or a mapping has no text.
fn text_of(setting: &Setting) -> &[u8] {
    match setting {
        Setting::Scalar(text) => text.as_slice(),
        Setting::Compound => b"..",
    }
}

fn push_values(text: &mut Vec<u8>, props: &Seq<Prop>) -> Result<(), AllocError> {
    for prop in props {
        let (name, value) = (prop.name.as_slice(), text_of(&prop.value));
        push_parts(text, &[b" gives ", name, b"=", value])?;
    }
    Ok(())
}

fn push_contents(text: &mut Vec<u8>, offer: &Offer) -> Result<(), AllocError> {
    push_addrs(text, &offer.addrs)?;
    push_listed(text, &offer.listed)?;
    push_values(text, &offer.properties)?;
    text.extend_from_slice(b"\n")
}

fn push_offer(text: &mut Vec<u8>, offer: &Offer) -> Result<(), AllocError> {
    let (kind, name) = (offer.kind.as_slice(), offer.public_name.as_slice());
    push_joint(text, b"offer ", &offer.joint)?;
    push_parts(text, &[b" ", kind, b" as ", name])?;
    push_contents(text, offer)
}

/// Adds a line for each offer: its link, its type, its public name, the addresses, the properties that it lists, and the
/// values of those that have one.
pub(crate) fn push_offers(text: &mut Vec<u8>, offers: &Seq<Offer>) -> Result<(), AllocError> {
    for offer in offers {
        push_offer(text, offer)?;
    }
    Ok(())
}
