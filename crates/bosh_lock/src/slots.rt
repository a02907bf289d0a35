//! The one slot of a lock, before there is one and where none could be made.
ghost use Rattle.std.specs.Prelude.{◌≡◌, ◌∷◌, [], MatchResult, Some};

use std::alloc::{AllocFailed, Global};

/// A row of one slot, or the value again for want of memory.
pub(crate) fn one_slot<S>(alloc: Global, value: S) -> Result<Vec<Option<S>>, S>
    ensures { MatchResult result (λ slots. slots.items ≡ Some value ∷ []) (λ back. back ≡ value) }
{
    let mut slots = Vec::new(alloc);
    match slots.push(Some(value)) {
        Ok(()) => Ok(slots),
        Err(AllocFailed { value: slot }) => {
            slots.destroy_empty();
            let Some(value) = slot else { unreachable!() };
            Err(value)
        }
    }
}

/// The value of such a row.
pub(crate) fn value_of<S>(slots: Vec<Option<S>>) -> S
    requires { (value : S) × (slots.items ≡ Some value ∷ []) }
    ensures { slots.items ≡ Some result ∷ [] }
{
    let mut slots = slots;
    let Some(slot) = slots.pop() else {
        unreachable!()
    };
    slots.destroy_empty();
    let Some(value) = slot else { unreachable!() };
    value
}
