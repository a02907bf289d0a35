ghost use Rattle.std.specs.Prelude.{◌≡◌, Err, IfErr, IfOk, Ok, OnOk, is_ok, true};

/// Two values, where there is the second.
pub fn beside<A: Drop, B: Drop, E: Drop>(one: A, other: Result<B, E>) -> Result<(A, B), E>
    ensures ok { IfOk result (λ both. (both.0 ≡ one) × (other ≡ Ok both.1)) }
    ensures err { IfErr result (λ fault. other ≡ Err fault) }
{
    match other {
        Ok(other) => Ok((one, other)),
        Err(fault) => Err(fault),
    }
}

/// A value after another one, which is let go.
pub fn after<A: Drop, B: Drop>(_before: A, value: B) -> B
    ensures { result ≡ value }
{
    value
}

/// A value that passed a test, or why it did not.
pub fn passed<A: Drop, E: Drop>(value: A, test: Result<(), E>) -> Result<A, E>
    ensures ok { IfOk result (λ passed. passed ≡ value) }
    ensures tested { OnOk result (is_ok test ≡ true) }
    ensures err { IfErr result (λ fault. test ≡ Err fault) }
{
    match test {
        Ok(()) => Ok(value),
        Err(fault) => Err(fault),
    }
}
