//! Plain scalars: null, truth values, integers and text.

ghost use Rattle.std.specs.Prelude.{◌≡◌, ◌&&◌, ◌||◌, Bool, IfErr, IfNone, IfOk, IfSome};
ghost use Rattle.std.specs.Str.{IsUtf8, all_ascii_digits, bytes_eq};
ghost use Rattle.bosh_yaml.specs.declared.plain.Leaf.TheVariants.{Text};
ghost use Rattle.bosh_yaml.specs.Scalar.{digits_of, integer_of, is_counting as counts, scalar_of, leaf_tree};
ghost use Rattle.bosh_yaml.specs.View.{tree_of};

use crate::fault::ReadFault;
use crate::node::Node;
use crate::text::Str;
use std::alloc::Global;
use std::str;

/// A value that is neither a list nor a mapping.
#[derive(Drop)]
pub(crate) enum Leaf {
    Null,
    Bool(bool),
    Int(i64),
    Text(Str),
}

impl From<Leaf> for Node {
    ghost from_gives = { λ s n. tree_of n ≡ leaf_tree s };

    fn from(leaf: Leaf) -> Node {
        match leaf {
            Leaf::Null => Node::Null,
            Leaf::Bool(b) => Node::Bool(b),
            Leaf::Int(n) => Node::Int(n),
            Leaf::Text(text) => Node::Text(text),
        }
    }
}

/// What a plain scalar stands for. A text that is not null, a truth value or an integer is text.
pub fn scalar(alloc: Global, text: &[u8]) -> Result<Node, ReadFault>
    requires { IsUtf8 text.now }
    ensures value { IfOk result (λ n. tree_of n ≡ leaf_tree (scalar_of text.now)) }
    ensures memory { IfErr result (λ e. e ≡ ReadFault.Memory) }
{
    let text = Str::from_utf8(alloc, text)?;
    Ok(Node::from(plain(text)))
}

/// What a plain scalar is.
pub(crate) fn plain(text: Str) -> Leaf
    ensures { result ≡ scalar_of text }
{
    match other_than_text(text.as_bytes()) {
        Some(leaf) => leaf,
        None => Leaf::Text(text),
    }
}

// What a plain scalar is, where it is not text.
fn other_than_text(text: &[u8]) -> Option<Leaf>
    requires { IsUtf8 text.now }
    ensures some { IfSome result (λ leaf. leaf ≡ scalar_of text.now) }
    ensures none { IfNone result (Text text.now ≡ scalar_of text.now) }
{
    if is_word(text, b"") || is_word(text, b"~") || is_word(text, b"null") {
        return Some(Leaf::Null);
    }
    if is_word(text, b"true") {
        return Some(Leaf::Bool(true));
    }
    if is_word(text, b"false") {
        return Some(Leaf::Bool(false));
    }
    match integer(text) {
        Some(n) => Some(Leaf::Int(n)),
        None => None,
    }
}

pub(crate) fn is_word(text: &[u8], word: &[u8]) -> bool
    ensures { result ≡ bytes_eq text.now word.now }
{
    text == word
}

// Whether these are digits that begin with 1 to 9.
fn is_counting(digits: &[u8]) -> bool
    ensures { result ≡ counts digits.now }
{
    match digits {
        [first, rest @ ..] => *first >= b'1' && *first <= b'9' && are_digits(rest),
        [] => false,
    }
}

fn are_digits(bytes: &[u8]) -> bool
    ensures { result ≡ all_ascii_digits bytes.now }
{
    bytes.iter().all(|b| b.is_ascii_digit())
}

fn digits_of(text: &[u8]) -> &[u8]
    ensures { result.now ≡ digits_of text.now }
{
    match text {
        [b'-', digits @ ..] => digits,
        _ => text,
    }
}

// The integer that a plain scalar writes.
fn integer(text: &[u8]) -> Option<i64>
    requires { IsUtf8 text.now }
    ensures { result ≡ integer_of text.now }
{
    if is_word(text, b"0") {
        return Some(0);
    }
    if !is_counting(digits_of(text)) {
        return None;
    }
    match str::from_utf8(text) {
        Ok(text) => text.parse().ok(),
        Err(_) => unreachable!(),
    }
}
