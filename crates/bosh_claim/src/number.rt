ghost use Rattle.std.specs.Prelude.{◌≡◌};
ghost use Rattle.bosh_claim.specs.Number.{is_next};

/// Whether a number is the next after another.
pub(crate) fn is_next(number: u64, last: u64) -> bool
    ensures { result ≡ is_next number last }
{
    Some(number) == last.checked_add(1)
}
