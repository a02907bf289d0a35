//! Nodes, lists of nodes, and mappings from keys to nodes.

ghost use Rattle.std.specs.Prelude.{◌≡◌, ◌==◌, false, [], ◌∷◌, ◌++◌, length, map, slice_get, take, None, IfOk, IfErr, OnOk, OnErr};
ghost use Rattle.std.specs.Option.{option_map};
ghost use Rattle.bosh_yaml.specs.Keys.{HasDistinctKeys, has_key, value_at, value_of_key};
ghost use Rattle.bosh_yaml.specs.View.{tree_of, pair_of};

use crate::copied::{Copied, CopyFault};
use crate::places::{FEW, Places};
use crate::text::Str;
use std::alloc::{AllocError, Global};
use std::marker::Model;

/// What a text says.
#[cycle(node)]
#[derive(Drop)]
pub enum Node {
    Null,
    Bool(bool),
    Int(i64),
    Text(Str),
    List(Items),
    Map(Pairs),
}

/// The nodes of a list, in order.
#[cycle(node)]
#[derive(Drop)]
pub struct Items {
    pub(crate) nodes: Vec<Node>,
}

impl Model for Items {
    ghost use Rattle.std.specs.Prelude.{List, map};
    ghost use Rattle.bosh_yaml.specs.Tree.{Tree};
    ghost use Rattle.bosh_yaml.specs.Code.{tree_code, nodes_in_list};
    ghost use Rattle.std.specs.Coded.{coded_list};

    ghost Value = { List Tree };

    ghost coded = { coded_list tree_code };

    ghost use Rattle.bosh_yaml.specs.View.{tree_of};

    ghost view = { λ s. map tree_of s.nodes.items };

    ghost size = { nodes_in_list };

    ghost use Rattle.std.proofs.Common.{arith};
    ghost use Rattle.bosh_yaml.specs.Depth.{most_le_nodes_in_list};

    ghost size_decreases = { λ a h. omega (arith, most_le_nodes_in_list a.nodes.items) };
}

impl Items {
    pub fn new(alloc: Global) -> Items
        ensures { result ≡ [] }
    {
        Items {
            nodes: Vec::new(alloc),
        }
    }

    /// An empty list with room for so many nodes.
    pub fn with_capacity(alloc: Global, nodes: usize) -> Result<Items, AllocError>
        ensures { IfOk result (λ items. items ≡ []) }
    {
        Ok(Items {
            nodes: Vec::with_capacity(alloc, nodes)?,
        })
    }

    pub fn len(&self) -> usize
        ensures { result ≡ length self.now }
    {
        self.nodes.len()
    }

    pub fn is_empty(&self) -> bool
        ensures { result ≡ (length self.now == 0) }
    {
        self.nodes.is_empty()
    }

    /// The node at `k`, none where the list has no more than `k` nodes.
    pub fn get(&self, k: usize) -> Option<&Node>
        ensures { option_map (λ n. tree_of n.now) result ≡ slice_get self.now k }
    {
        self.nodes.get(k)
    }

    /// The nodes, in order.
    pub fn as_slice(&self) -> &[Node]
        ensures { map tree_of result.now ≡ self.now }
    {
        self.nodes.as_slice()
    }

    /// Adds a node at the end, or gives it back where memory runs out.
    pub fn push(&mut self, node: Node) -> Result<(), Node>
        ensures ok { OnOk result (self.new ≡ self.old ++ tree_of node ∷ []) }
        ensures unchanged { OnErr result (self.new ≡ self.old) }
        ensures returned { IfErr result (λ n. n ≡ node) }
    {
        match self.nodes.push(node) {
            Ok(()) => Ok(()),
            Err(full) => Err(full.value),
        }
    }
}

/// The keys and values of a mapping, in the order in which they were written. No key stands twice.
#[cycle(node)]
#[derive(Drop)]
pub struct Pairs {
    pub(crate) entries: Vec<(Str, Node)>,
    places: Places,
}

impl Model for Pairs {
    ghost use Rattle.std.specs.Prelude.{List, map, ℕ};
    ghost use Rattle.bosh_yaml.specs.Tree.{Tree};
    ghost use Rattle.bosh_yaml.specs.Code.{tree_code, nodes_in_pairs};
    ghost use Rattle.std.specs.Coded.{coded_list, coded×, coded_ℕ};

    ghost Value = { List (List ℕ × Tree) };

    ghost coded = { coded_list (coded× (coded_list coded_ℕ) tree_code) };

    ghost use Rattle.bosh_yaml.specs.View.{pair_of};
    ghost use Rattle.bosh_yaml.specs.Keys.{HasDistinctKeys};
    ghost use Rattle.bosh_yaml.specs.Places.{IsNoted};

    ghost view = { λ s. map pair_of s.entries.items };

    ghost invariant = { λ s. HasDistinctKeys (map pair_of s.entries.items)
        × IsNoted s.places 8 (map pair_of s.entries.items) };

    ghost size = { nodes_in_pairs };

    ghost use Rattle.bosh_yaml.specs.Depth.{most_le_nodes_in_pairs, max_zero_le};

    ghost size_decreases = { λ a h. max_zero_le _ _ (most_le_nodes_in_pairs a.entries.items) };
}

impl Pairs {
    pub fn new(alloc: Global) -> Pairs
        ensures { result ≡ [] }
    {
        Pairs {
            entries: Vec::new(alloc),
            places: Places::new(),
        }
    }

    /// An empty mapping with room for so many keys.
    pub fn with_capacity(alloc: Global, keys: usize) -> Result<Pairs, AllocError>
        ensures { IfOk result (λ pairs. pairs ≡ []) }
    {
        Ok(Pairs {
            entries: Vec::with_capacity(alloc, keys)?,
            places: Places::new(),
        })
    }

    pub fn len(&self) -> usize
        ensures length { result ≡ length self.now }
        ensures distinct { HasDistinctKeys self.now }
    {
        self.entries.len()
    }

    pub fn is_empty(&self) -> bool
        ensures { result ≡ (length self.now == 0) }
    {
        self.entries.is_empty()
    }

    /// The key and the value at `k`, none where the mapping has no more than `k` keys.
    pub fn get(&self, k: usize) -> Option<(&Str, &Node)>
        ensures { option_map (λ p. (p.0.now, tree_of p.1.now)) result ≡ slice_get self.now k }
    {
        match self.entries.get(k) {
            Some((key, value)) => Some((key, value)),
            None => None,
        }
    }

    /// The keys and values, in their written order.
    pub fn as_slice(&self) -> &[(Str, Node)]
        ensures value { map pair_of result.now ≡ self.now }
        ensures distinct { HasDistinctKeys self.now }
    {
        self.entries.as_slice()
    }

    /// The value at a key.
    pub fn find(&self, key: &[u8]) -> Option<&Node>
        ensures { option_map (λ n. tree_of n.now) result ≡ value_at key.now self.now }
    {
        let few = self.entries.len().min(FEW);
        match value_of(key, &self.entries.as_slice()[..few]) {
            Some(value) => Some(value),
            None => self.find_placed(key),
        }
    }

    // The value at a key that is none of the first few.
    fn find_placed(&self, key: &[u8]) -> Option<&Node>
        requires { value_at key.now (take 8 self.now) ≡ None }
        ensures { option_map (λ n. tree_of n.now) result ≡ value_at key.now self.now }
    {
        let (written, value) = self.entries.get(self.places.of(key)?)?;
        if written.as_bytes() == key {
            Some(value)
        } else {
            None
        }
    }

    /// Whether a key is there.
    pub fn has(&self, key: &[u8]) -> bool
        ensures { result ≡ has_key key.now self.now }
    {
        self.find(key).is_some()
    }

    /// Adds a key and its value at the end, or gives both back where memory runs out.
    pub fn push(&mut self, key: Str, value: Node) -> Result<(), (Str, Node)>
        requires { has_key key self.old ≡ false }
        ensures ok { OnOk result (self.new ≡ self.old ++ (key, tree_of value) ∷ []) }
        ensures unchanged { OnErr result (self.new ≡ self.old) }
        ensures returned { IfErr result (λ p. p ≡ (key, value)) }
    {
        let alloc = *self.entries.allocator();
        let place = self.entries.len();
        if self.places.note(alloc, key.as_bytes(), place).is_err() {
            return Err((key, value));
        }
        match self.entries.push((key, value)) {
            Ok(()) => Ok(()),
            Err(full) => Err(full.value),
        }
    }
}

// The value at a key of some entries.
fn value_of<'a>(key: &[u8], entries: &'a [(Str, Node)]) -> Option<&'a Node>
    ensures { option_map (λ n. tree_of n.now) result ≡ value_at key.now (map pair_of entries.now) }
{
    for (written, value) in entries {
        if written.as_bytes() == key {
            return Some(value);
        }
    }
    None
}

impl Node {
    /// The value at a key, none where this is no mapping or has no such key.
    pub fn find(&self, key: &[u8]) -> Option<&Node>
        ensures { option_map (λ n. tree_of n.now) result ≡ value_of_key key.now (tree_of self.now) }
    {
        match self {
            Node::Map(pairs) => pairs.find(key),
            _ => None,
        }
    }
}

#[cycle(copy)]
fn copy_node(node: &Node, alloc: Global) -> Result<Node, CopyFault>
    ensures { IfOk result (λ c. c ≡ node.now) }
{
    match node {
        Node::Null => Ok(Node::Null),
        Node::Bool(b) => Ok(Node::Bool(*b)),
        Node::Int(n) => Ok(Node::Int(*n)),
        Node::Text(text) => Ok(Node::Text(text.copy(alloc)?)),
        Node::List(items) => Ok(Node::List(copy_items(items, alloc)?)),
        Node::Map(pairs) => Ok(Node::Map(copy_pairs(pairs, alloc)?)),
    }
}

#[cycle(copy)]
fn copy_items(items: &Items, alloc: Global) -> Result<Items, CopyFault>
    ensures { IfOk result (λ c. c ≡ items.now) }
{
    let mut nodes = Vec::with_capacity(alloc, items.nodes.len())?;
    for node in &items.nodes {
        nodes.push(copy_node(node, alloc)?)?;
    }
    Ok(Items { nodes })
}

#[cycle(copy)]
fn copy_pairs(pairs: &Pairs, alloc: Global) -> Result<Pairs, CopyFault>
    ensures { IfOk result (λ c. c ≡ pairs.now) }
{
    let mut copied = Pairs::new(alloc);
    for (key, value) in &pairs.entries {
        let value = copy_node(value, alloc)?;
        push_copy(alloc, key, value, &mut copied)?;
    }
    Ok(copied)
}

// Adds a copy of a key, and its value.
fn push_copy(alloc: Global, key: &Str, value: Node, pairs: &mut Pairs) -> Result<(), CopyFault>
    requires { has_key key.now pairs.old ≡ false }
    ensures { OnOk result (pairs.new ≡ pairs.old ++ (key.now, tree_of value) ∷ []) }
{
    let key = key.copy(alloc)?;
    match pairs.push(key, value) {
        Ok(()) => Ok(()),
        Err(_) => Err(CopyFault::Memory),
    }
}

impl Copied for Node {
    fn copy(&self, alloc: Global) -> Result<Node, CopyFault> {
        copy_node(self, alloc)
    }
}

impl Copied for Items {
    fn copy(&self, alloc: Global) -> Result<Items, CopyFault> {
        copy_items(self, alloc)
    }
}

impl Copied for Pairs {
    fn copy(&self, alloc: Global) -> Result<Pairs, CopyFault> {
        copy_pairs(self, alloc)
    }
}
