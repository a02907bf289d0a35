ghost use Rattle.std.specs.Prelude.{◌≡◌};

/// Puts a value in the place of another, which is let go. Generic, since to let a value of many variants go is dear to
/// prove in the body that does it.
pub(crate) fn put<T: Drop>(place: &mut T, value: T)
    ensures { place.new ≡ value }
{
    *place = value;
}
