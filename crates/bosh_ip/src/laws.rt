//! Laws of the texts. Each is the contract of a function that does nothing.
ghost use Rattle.std.specs.Prelude.{◌≡◌, ℕ, ◌^◌, ◌<◌, List, Result, Ok, IfOk, IfErr};
ghost use Rattle.bosh_ip.specs.declared.fault.IpFault.{IpFault};
ghost use Rattle.bosh_ip.specs.declared.network.Cidr.{Cidr};
ghost use Rattle.bosh_ip.specs.declared.range.Span.{Span};
ghost use Rattle.bosh_ip.specs.Address.{SpellsAddr, RefusesAddr, spelling_of_addr};
ghost use Rattle.bosh_ip.specs.Network.{SpellsCidr, IsNetwork, RefusesCidr};
ghost use Rattle.bosh_ip.specs.Range.{SpellsSpan, RefusesRange};

/// A text spells one address at most, one network at most and one range at most.
pub fn spelled_once()
    ensures addr { (text : List ℕ) (m n : ℕ) → SpellsAddr text m → SpellsAddr text n → m ≡ n }
    ensures cidr { (text : List ℕ) (a b : Cidr) → SpellsCidr text a → SpellsCidr text b → a ≡ b }
    ensures range { (text : List ℕ) (a b : Span) → SpellsSpan text a → SpellsSpan text b → a ≡ b }
{}

/// A text that is refused spells no network, or no range, that is in order.
pub fn refused_spells_none()
    ensures cidr { (text : List ℕ) (fault : IpFault) → RefusesCidr text fault
        → (net : Cidr) → SpellsCidr text net → ¬ IsNetwork net }
    ensures range { (text : List ℕ) (fault : IpFault) → RefusesRange text fault
        → (span : Span) → SpellsSpan text span → span.last < span.first }
{}

/// What `show_addr` writes reads back: whatever `parse_addr` answers on it is the same address.
pub fn shown_reads_back()
    ensures { (n : ℕ) (answer : Result ℕ IpFault) → n < 2 ^ 32
        → IfOk answer (SpellsAddr (spelling_of_addr n))
        → IfErr answer (RefusesAddr (spelling_of_addr n))
        → answer ≡ Ok n }
{}
