//! Laws of templates as they are read, on a public function that does nothing.
ghost use Rattle.std.specs.Prelude.{◌≡◌, ℕ, List, Ok, Err};
ghost use Rattle.bosh_files.specs.Parsed.{parts_in};
ghost use Rattle.bosh_template.specs.Grammar.{IsSyntax, Spells};
ghost use Rattle.bosh_template.specs.declared.fault.TemplateFault.TheVariants.{Syntax};
ghost use Rattle.bosh_template.specs.declared.template.Part.{Part};

/// A text that spells parts is read as those, and one that is refused at a place is refused there.
pub fn read_as_spelled()
    ensures read { (text : List ℕ) (parts : List Part) → Spells text parts → parts_in text ≡ Ok parts }
    ensures refused { (text : List ℕ) (place : ℕ) → IsSyntax text place → parts_in text ≡ Err (Syntax place) }
{}
