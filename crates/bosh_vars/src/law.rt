//! The laws of placeholders.

ghost use Rattle.std.specs.Prelude.{◌≡◌, ℕ, List, Ok, Some};
ghost use Rattle.bosh_yaml.specs.Tree.{Tree};
ghost use Rattle.bosh_vars.specs.Filled.{Values, filled};
ghost use Rattle.bosh_vars.specs.Placeholder.{name_at, parts};
ghost use Rattle.bosh_vars.specs.Size.{filled_size, size};
ghost use Rattle.bosh_vars.specs.Spelling.{AreRight, BeginsWith, text_of_parts};

/// A text begins with a placeholder exactly where it is written so, the parts of a text, one after
/// another, are the text, and a byte stands among them as plain only where no placeholder begins.
pub fn parts_are_the_text()
    ensures found { (text name : List ℕ) → name_at text ≡ Some name → (after : List ℕ) × BeginsWith text name after }
    ensures spelled { (text name after : List ℕ) → BeginsWith text name after → name_at text ≡ Some name }
    ensures whole { (text : List ℕ) → text_of_parts (parts text) ≡ text }
    ensures right { (text : List ℕ) → AreRight (parts text) }
{}

/// What filling makes is as large as it was measured.
pub fn what_is_measured_is_made()
    ensures { (values : Values) → (node made : Tree) → filled values node ≡ Ok made → filled_size values node ≡ size made }
{}
