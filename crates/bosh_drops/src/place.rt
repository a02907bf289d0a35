ghost use Rattle.std.specs.Prelude.{◌≡◌};

/// Puts a value in the place of another, which is let go.
pub fn put<T: Drop>(place: &mut T, value: T)
    ensures { place.new ≡ value }
{
    *place = value;
}

/// Lets a value go.
pub fn let_go<T: Drop>(_value: T) {}
