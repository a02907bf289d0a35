//! What cases give, as values of the types that calls take.
use crate::CaseFault;
use crate::bytes::{characters, number_of};
use bosh_base::Seq;
use bosh_yaml::Node;
use std::alloc::Global;

/// What a case can give as JSON.
pub trait Given: Drop {
    /// The value that a node writes. What is absent is written by null.
    fn of(alloc: Global, node: &Node) -> Result<Self, CaseFault>;
}

/// The value at a key. The node of a key that is absent is null.
pub fn field<T: Given>(alloc: Global, node: &Node, key: &str) -> Result<T, CaseFault> {
    match node.find(key.as_bytes()) {
        Some(value) => T::of(alloc, value),
        None => T::of(alloc, &Node::Null),
    }
}

/// Two values, where both are there.
pub fn both<A: Drop, B: Drop>(
    first: Result<A, CaseFault>,
    second: Result<B, CaseFault>,
) -> Result<(A, B), CaseFault> {
    let first = first?;
    Ok((first, second?))
}

/// The values at two keys.
pub fn two<A: Given, B: Given>(
    alloc: Global,
    node: &Node,
    keys: [&str; 2],
) -> Result<(A, B), CaseFault> {
    both(field(alloc, node, keys[0]), field(alloc, node, keys[1]))
}

/// The values at four keys.
pub fn four<A: Given, B: Given, C: Given, D: Given>(
    alloc: Global,
    node: &Node,
    keys: [&str; 4],
) -> Result<(A, B, C, D), CaseFault> {
    let front = two(alloc, node, [keys[0], keys[1]]);
    let back = two(alloc, node, [keys[2], keys[3]]);
    let ((a, b), (c, d)) = both(front, back)?;
    Ok((a, b, c, d))
}

/// The two values of a list.
pub fn pair<A: Given, B: Given>(alloc: Global, node: &Node) -> Result<(A, B), CaseFault> {
    let Node::List(items) = node else {
        return Err(CaseFault::Form);
    };
    let [first, second] = items.as_slice() else {
        return Err(CaseFault::Form);
    };
    both(A::of(alloc, first), B::of(alloc, second))
}

/// What each of some nodes is read as.
pub fn each<T: Drop, F>(alloc: Global, nodes: &[Node], read: F) -> Result<Seq<T>, CaseFault>
where
    F: Fn(Global, &Node) -> Result<T, CaseFault> + Drop,
    requires { F.IsAlwaysCallable read }
{
    let mut values = Vec::new(alloc);
    for node in nodes {
        values.push(read(alloc, node)?)?;
    }
    Ok(Seq::from(values))
}

/// What each node of the list at a key is read as.
pub fn all<T: Drop, F>(alloc: Global, node: &Node, key: &str, read: F) -> Result<Seq<T>, CaseFault>
where
    F: Fn(Global, &Node) -> Result<T, CaseFault> + Drop,
    requires { F.IsAlwaysCallable read }
{
    each(alloc, items(node, key)?, read)
}

/// The values of a list.
pub fn list<T: Given>(alloc: Global, node: &Node) -> Result<Seq<T>, CaseFault> {
    match node {
        Node::List(items) => each(alloc, items.as_slice(), |alloc, item| T::of(alloc, item)),
        _ => Err(CaseFault::Form),
    }
}

/// The node at a key, which has to be there.
pub fn there<'a>(node: &'a Node, key: &str) -> Result<&'a Node, CaseFault> {
    node.find(key.as_bytes()).ok_or(CaseFault::Form)
}

/// The nodes of the list at a key, or none where it is absent.
pub fn items<'a>(node: &'a Node, key: &str) -> Result<&'a [Node], CaseFault> {
    match node.find(key.as_bytes()) {
        None => Ok(&[]),
        Some(Node::List(items)) => Ok(items.as_slice()),
        Some(_) => Err(CaseFault::Form),
    }
}

/// The characters of a node that is a text.
pub fn word_of(node: &Node) -> Result<&str, CaseFault> {
    match node {
        Node::Text(text) => characters(text),
        _ => Err(CaseFault::Form),
    }
}

/// The characters of the text at a key.
pub fn text_at<'a>(node: &'a Node, key: &str) -> Result<&'a str, CaseFault> {
    word_of(there(node, key)?)
}

/// What stands before the first such character of a text, and what stands after it.
pub fn cut(text: &str, at: char) -> Result<(&str, &str), CaseFault> {
    text.split_once(at).ok_or(CaseFault::Form)
}

/// The name of a variant, and what it has: `{NAME: ..}`, or a text where it has nothing.
pub fn variant(node: &Node) -> Result<(&str, &Node), CaseFault> {
    let Node::Map(pairs) = node else {
        return Ok((word_of(node)?, node));
    };
    match pairs.as_slice() {
        [(name, value)] => Ok((characters(name)?, value)),
        _ => Err(CaseFault::Form),
    }
}

impl<A: Given, B: Given> Given for (A, B) {
    fn of(alloc: Global, node: &Node) -> Result<Self, CaseFault> {
        pair(alloc, node)
    }
}

impl<T: Given> Given for Option<T> {
    fn of(alloc: Global, node: &Node) -> Result<Self, CaseFault> {
        match node {
            Node::Null => Ok(None),
            _ => Ok(Some(T::of(alloc, node)?)),
        }
    }
}

impl<T: Given> Given for Seq<T> {
    fn of(alloc: Global, node: &Node) -> Result<Self, CaseFault> {
        match node {
            Node::Null => Ok(Seq::new(alloc)),
            _ => list(alloc, node),
        }
    }
}

impl Given for bool {
    fn of(_alloc: Global, node: &Node) -> Result<Self, CaseFault> {
        match node {
            Node::Bool(flag) => Ok(*flag),
            _ => Err(CaseFault::Form),
        }
    }
}

impl Given for u64 {
    fn of(_alloc: Global, node: &Node) -> Result<Self, CaseFault> {
        number_of(node)
    }
}

impl Given for u32 {
    fn of(_alloc: Global, node: &Node) -> Result<Self, CaseFault> {
        match u32::try_from(number_of(node)?) {
            Ok(number) => Ok(number),
            Err(_) => Err(CaseFault::Form),
        }
    }
}
