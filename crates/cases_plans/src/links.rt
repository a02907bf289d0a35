//! The links of goals.
use bosh_base::{Offer, Seq, Setting, Tie};
use cases_words::Told;
use std::fmt;

/// Adds a line for each tie.
pub(crate) fn add_ties<W: fmt::Write>(f: &mut fmt::Formatter<W>, ties: &Seq<Tie>) -> fmt::Result {
    for tie in ties {
        write!(f, "tie {}\n", Told(tie))?;
    }
    Ok(())
}

// A list or a mapping has no text.
fn add_setting<W: fmt::Write>(f: &mut fmt::Formatter<W>, setting: &Setting) -> fmt::Result {
    match setting {
        Setting::Scalar(text) => write!(f, "{}", Told(text)),
        Setting::Compound => f.write_str(".."),
    }
}

fn add_contents<W: fmt::Write>(f: &mut fmt::Formatter<W>, offer: &Offer) -> fmt::Result {
    for addr in &offer.addrs {
        write!(f, " at {}", Told(addr))?;
    }
    for name in &offer.listed {
        write!(f, " lists {}", Told(name))?;
    }
    for prop in &offer.properties {
        write!(f, " gives {}=", Told(&prop.name))?;
        add_setting(f, &prop.value)?;
    }
    f.write_str("\n")
}

/// Adds a line for an offer: its link, its type, its public name, the addresses, the properties that it lists, and the
/// values of those that have one.
pub(crate) fn add_offer<W: fmt::Write>(f: &mut fmt::Formatter<W>, offer: &Offer) -> fmt::Result {
    let (kind, name) = (Told(&offer.kind), Told(&offer.public_name));
    write!(f, "offer {} {kind} as {name}", Told(&offer.joint))?;
    add_contents(f, offer)
}
