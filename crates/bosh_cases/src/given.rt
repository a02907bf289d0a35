//! What cases give, as values of the types that calls take.
use crate::CaseFault;
use crate::bytes::number_of;
use bosh_base::Seq;
use bosh_yaml::Node;
use std::alloc::Global;

/// What a case can give as JSON.
pub trait Given: Drop {
    /// The value that a node writes. What is absent is written by null.
    fn of(alloc: Global, node: &Node) -> Result<Self, CaseFault>;
}

/// The value at a key. The node of a key that is absent is null.
pub fn field<T: Given>(alloc: Global, node: &Node, key: &str) -> Result<T, CaseFault> {
    match node.find(key.as_bytes()) {
        Some(value) => T::of(alloc, value),
        None => T::of(alloc, &Node::Null),
    }
}

/// Two values, where both are there.
pub fn both<A: Drop, B: Drop>(
    first: Result<A, CaseFault>,
    second: Result<B, CaseFault>,
) -> Result<(A, B), CaseFault> {
    let first = first?;
    Ok((first, second?))
}

/// The values at two keys.
pub fn two<A: Given, B: Given>(
    alloc: Global,
    node: &Node,
    keys: [&str; 2],
) -> Result<(A, B), CaseFault> {
    both(field(alloc, node, keys[0]), field(alloc, node, keys[1]))
}

/// The values at four keys.
pub fn four<A: Given, B: Given, C: Given, D: Given>(
    alloc: Global,
    node: &Node,
    keys: [&str; 4],
) -> Result<(A, B, C, D), CaseFault> {
    let front = two(alloc, node, [keys[0], keys[1]]);
    let back = two(alloc, node, [keys[2], keys[3]]);
    let ((a, b), (c, d)) = both(front, back)?;
    Ok((a, b, c, d))
}

/// The two values of a list.
pub fn pair<A: Given, B: Given>(alloc: Global, node: &Node) -> Result<(A, B), CaseFault> {
    let Node::List(items) = node else {
        return Err(CaseFault::Form);
    };
    let [first, second] = items.as_slice() else {
        return Err(CaseFault::Form);
    };
    both(A::of(alloc, first), B::of(alloc, second))
}

/// The values of a list.
pub fn list<T: Given>(alloc: Global, node: &Node) -> Result<Seq<T>, CaseFault> {
    let Node::List(items) = node else {
        return Err(CaseFault::Form);
    };
    let mut values = Vec::new(alloc);
    for item in items.as_slice() {
        values.push(T::of(alloc, item)?)?;
    }
    Ok(Seq::from(values))
}

impl<A: Given, B: Given> Given for (A, B) {
    fn of(alloc: Global, node: &Node) -> Result<Self, CaseFault> {
        pair(alloc, node)
    }
}

impl<T: Given> Given for Option<T> {
    fn of(alloc: Global, node: &Node) -> Result<Self, CaseFault> {
        match node {
            Node::Null => Ok(None),
            _ => Ok(Some(T::of(alloc, node)?)),
        }
    }
}

impl<T: Given> Given for Seq<T> {
    fn of(alloc: Global, node: &Node) -> Result<Self, CaseFault> {
        match node {
            Node::Null => Ok(Seq::new(alloc)),
            _ => list(alloc, node),
        }
    }
}

impl Given for bool {
    fn of(_alloc: Global, node: &Node) -> Result<Self, CaseFault> {
        match node {
            Node::Bool(flag) => Ok(*flag),
            _ => Err(CaseFault::Form),
        }
    }
}

impl Given for u64 {
    fn of(_alloc: Global, node: &Node) -> Result<Self, CaseFault> {
        number_of(node)
    }
}

impl Given for u32 {
    fn of(_alloc: Global, node: &Node) -> Result<Self, CaseFault> {
        match u32::try_from(number_of(node)?) {
            Ok(number) => Ok(number),
            Err(_) => Err(CaseFault::Form),
        }
    }
}
