//! Laws of templates, on public functions that do nothing.
ghost use Rattle.std.specs.Prelude.{◌≡◌, ℕ, List};
ghost use Rattle.bosh_template.specs.Grammar.{IsSyntax, Spells};
ghost use Rattle.bosh_template.specs.declared.template.Part.{Part};

/// A text spells one template at most, and is refused at one place at most; one that is refused spells none.
/// So a text that spells a template is read as that very template, and no other text is read.
pub fn spelled_once()
    ensures template { (text : List ℕ) (a b : List Part) → Spells text a → Spells text b → a ≡ b }
    ensures place { (text : List ℕ) (a b : ℕ) → IsSyntax text a → IsSyntax text b → a ≡ b }
    ensures refused { (text : List ℕ) (place : ℕ) (parts : List Part) → IsSyntax text place → ¬ Spells text parts }
{}
