use crate::{CaseFault, Given, both, cut, field, two, word_of};
use bosh_base::{Digest, Key, KeyWork, Text};
use bosh_yaml::Node;
use std::alloc::Global;

fn digest_of(text: &str) -> Result<Digest, CaseFault> {
    match u8::from_str_radix(text, 16) {
        Ok(byte) if text.len() == 2 => Ok(Digest([byte; 32])),
        _ => Err(CaseFault::Form),
    }
}

/// As `ab`, which stands for 32 equal bytes.
impl Given for Digest {
    fn of(_alloc: Global, node: &Node) -> Result<Self, CaseFault> {
        digest_of(word_of(node)?)
    }
}

fn text_of(alloc: Global, text: &str) -> Result<Text, CaseFault> {
    Ok(Text::from(Vec::from_slice(alloc, text.as_bytes())?))
}

// The fingerprint, the operating system and the version of a key.
fn key_words(text: &str) -> Result<(&str, &str, &str), CaseFault> {
    let (fingerprint, stemcell) = cut(text, ' ')?;
    let (os, version) = cut(stemcell, '/')?;
    Ok((fingerprint, os, version))
}

/// As `ab jammy/1`: the fingerprint, and the stemcell.
impl Given for Key {
    fn of(alloc: Global, node: &Node) -> Result<Self, CaseFault> {
        let (fingerprint, os, version) = key_words(word_of(node)?)?;
        let fingerprint = digest_of(fingerprint)?;
        let (os, version) = both(text_of(alloc, os), text_of(alloc, version))?;
        Ok(Key {
            fingerprint,
            os,
            version,
        })
    }
}

/// `name`, `key` and `deps`, the keys of what it needs.
impl Given for KeyWork {
    fn of(alloc: Global, node: &Node) -> Result<Self, CaseFault> {
        let front = two(alloc, node, ["name", "key"]);
        let ((name, key), deps) = both(front, field(alloc, node, "deps"))?;
        Ok(KeyWork { name, key, deps })
    }
}
