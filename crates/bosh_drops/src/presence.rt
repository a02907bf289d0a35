ghost use Rattle.std.specs.Prelude.{◌≡◌, Err, IfErr, IfOk, Ok, Option, is_some};

/// Whether there is a value, which is let go.
pub fn is_some<T: Drop>(value: Option<T>) -> bool
    ensures { result ≡ is_some value }
{
    value.is_some()
}

/// Whether something was found, which is let go.
pub fn is_there<T: Drop, E: Drop>(found: Result<Option<T>, E>) -> Result<bool, E>
    ensures there { IfOk result (λ yes. (it : Option T) × (found ≡ Ok it) × (yes ≡ is_some it)) }
    ensures fault { IfErr result (λ fault. found ≡ Err fault) }
{
    match found {
        Ok(found) => Ok(is_some(found)),
        Err(fault) => Err(fault),
    }
}
