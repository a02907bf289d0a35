//! Laws of the least address, on a public function that does nothing.
ghost use Rattle.std.specs.Prelude.{◌≡◌, ◌<◌, ◌^◌, Bool, Option, Some, None};
ghost use Rattle.bosh_base.specs.declared.addr.Addr.{Addr};
ghost use Rattle.bosh_bands.specs.Least.{IsLeast, PassesNowhere, least};

/// The least address that passes a test passes it, with none below it that does; there is none where no address passes.
pub fn least_is_least()
    ensures is { (test : Addr → Bool) (addr : Addr) → least test ≡ Some addr → IsLeast test addr }
    ensures found { (test : Addr → Bool) (addr : Addr) → addr.0 < 2 ^ 32 → IsLeast test addr → least test ≡ Some addr }
    ensures none { (test : Addr → Bool) → least test ≡ None → PassesNowhere test }
    ensures nowhere { (test : Addr → Bool) → PassesNowhere test → least test ≡ None }
{}
