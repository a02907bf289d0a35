//! Laws of the texts. Each is the contract of a function that does nothing.
ghost use Rattle.std.specs.Prelude.{◌≡◌, ◌<◌, ◌≤◌, ◌-◌, ℕ, false, true, List, take, Result, Ok, Err, length, option_map};
ghost use Rattle.bosh_yaml.specs.Canon.{canon_text};
ghost use Rattle.bosh_yaml.specs.declared.fault.ReadFault.TheVariants.{Number, RepeatedKey, Syntax, TooDeep};
ghost use Rattle.bosh_yaml.specs.Keys.{value_of_key};
ghost use Rattle.bosh_yaml.specs.Limits.{depth, HasEachKeyOnce};
ghost use Rattle.bosh_yaml.specs.Lines.{begins, lines_of};
ghost use Rattle.bosh_yaml.specs.Order.{in_key_order, IsInKeyOrder, IsWritable};
ghost use Rattle.bosh_yaml.specs.Reading.{reading};
ghost use Rattle.bosh_yaml.specs.Repeats.{RepeatsKey, RepeatsNoKey};
ghost use Rattle.bosh_yaml.specs.Spelling.{Spells, SpellsJson};
ghost use Rattle.bosh_yaml.specs.Tree.{Tree, Fields, map};

/// A text spells at most one tree.
pub fn spelled_once()
    ensures { (text : List ℕ) (s t : Tree) → Spells text s → Spells text t → s ≡ t }
{}

/// What a text of at most 1,048,576 bytes spells, with each key once in its mapping, is what `read` reads, unless it
/// nests deeper than 64 lists and mappings and is refused for that.
pub fn what_is_spelled_is_read()
    ensures read { (text : List ℕ) (t : Tree) → Spells text t → HasEachKeyOnce t
        → length text ≤ 1048576 → depth t ≤ 64 → reading text ≡ Ok t }
    ensures too_deep { (text : List ℕ) (t : Tree) → Spells text t → HasEachKeyOnce t
        → length text ≤ 1048576 → 64 < depth t → reading text ≡ Err TooDeep }
{}

/// What is read is spelled so.
pub fn what_is_read_is_spelled()
    ensures { (text : List ℕ) (t : Tree) → reading text ≡ Ok t → Spells text t }
{}

/// A text that is refused for its syntax, or for a number of its JSON, spells nothing; one that is refused for a key
/// that stands twice spells no tree with each key once.
pub fn refused_spells_none()
    ensures syntax { (text : List ℕ) (line : ℕ) → reading text ≡ Err (Syntax line) → (t : Tree) → ¬ Spells text t }
    ensures number { (text : List ℕ) → reading text ≡ Err Number → (t : Tree) → ¬ Spells text t }
    ensures repeated { (text : List ℕ) (line : ℕ) → reading text ≡ Err (RepeatedKey line)
        → (t : Tree) → Spells text t → ¬ HasEachKeyOnce t }
{}

/// A text of at most 1,048,576 bytes that spells a tree in which a key stands twice in a mapping is refused for that.
/// No JSON text spells one: of a key that stands twice in an object the last value stays.
pub fn what_repeats_a_key_is_refused()
    ensures refused { (text : List ℕ) (t : Tree) → Spells text t → ¬ HasEachKeyOnce t
        → length text ≤ 1048576 → (line : ℕ) × (reading text ≡ Err (RepeatedKey line)) }
    ensures json { (text : List ℕ) (t : Tree) → SpellsJson text t → HasEachKeyOnce t }
{}

/// A refusal for a repeated key or for syntax names a line of the text, counted from 1. JSON, a text whose first byte is
/// `{`, is refused for its syntax at line 0, and never for a key.
pub fn refusals_name_a_line()
    ensures repeated { (text : List ℕ) (line : ℕ) → reading text ≡ Err (RepeatedKey line)
        → (1 ≤ line) × (line ≤ length (lines_of text)) }
    ensures syntax { (text : List ℕ) (line : ℕ) → begins 123 text ≡ false → reading text ≡ Err (Syntax line)
        → (1 ≤ line) × (line ≤ length (lines_of text)) }
    ensures json_syntax { (text : List ℕ) (line : ℕ) → begins 123 text ≡ true
        → reading text ≡ Err (Syntax line) → line ≡ 0 }
    ensures json_keys { (text : List ℕ) (line : ℕ) → begins 123 text ≡ true
        → ¬ (reading text ≡ Err (RepeatedKey line)) }
{}

/// Of the lines up to the one that a refusal for a repeated key names some mapping repeats a key, and of the lines
/// before it none does.
pub fn repeated_key_is_on_its_line()
    ensures up_to { (text : List ℕ) (line : ℕ) → reading text ≡ Err (RepeatedKey line)
        → RepeatsKey (take line (lines_of text)) }
    ensures before { (text : List ℕ) (line : ℕ) → reading text ≡ Err (RepeatedKey line)
        → RepeatsNoKey (take (line - 1) (lines_of text)) }
{}

/// A YAML text that is refused for its depth spells a tree that nests deeper than 64 lists and mappings.
pub fn what_is_too_deep_is_spelled()
    ensures { (text : List ℕ) → begins 123 text ≡ false → reading text ≡ Err TooDeep
        → (t : Tree) × Spells text t × (64 < depth t) }
{}

/// The canonical text of a mapping is read as the mapping in the order of its keys, where it has at most 1,048,576
/// bytes and nests at most 64 lists and mappings. Each node's texts are UTF-8 and its integers within 64 bits; `canon`
/// has the law for nodes.
pub fn what_is_canonical_is_read()
    ensures { (fs : Fields) → IsWritable (map fs) → depth (map fs) ≤ 64
        → length (canon_text (map fs)) ≤ 1048576
        → reading (canon_text (map fs)) ≡ Ok (in_key_order (map fs)) }
{}

/// In key order, the keys of each mapping ascend; and where each key stands once, each has the value that it had.
pub fn key_order_keeps_values()
    ensures ascending { (t : Tree) → IsInKeyOrder (in_key_order t) }
    ensures values { (t : Tree) → HasEachKeyOnce t → (key : List ℕ)
        → value_of_key key (in_key_order t) ≡ option_map in_key_order (value_of_key key t) }
{}
