ghost use Rattle.std.specs.Prelude.{◌≡◌, Err, IfOk};
ghost use Rattle.bosh_fields.specs.Answer.{IsAnswer};
ghost use Rattle.bosh_fields.specs.declared.fault.FieldFault.TheVariants.{Missing, WrongKind, Repeated, Malformed, Unsupported, Limit, Memory};

use bosh_base::{CopyFault, Text};
use std::alloc::{AllocError, AllocFailed, Global};

/// Why fields were not read. A key is that of the field.
#[derive(Drop)]
pub enum FieldFault {
    /// A required key is absent, or its value is null.
    Missing { key: Text },
    /// The value of the key, or an item of its list, is of another kind than the key takes.
    WrongKind { key: Text },
    /// The name stands twice in one list.
    Repeated { name: Text },
    /// A text has not the form that the key takes.
    Malformed { key: Text },
    /// The value would ask for what is not offered.
    Unsupported { key: Text },
    /// A number is outside the bounds of the key, or a list is too long.
    Limit { key: Text },
    Memory,
}

impl From<AllocError> for FieldFault {
    ghost from_gives = { λ _ fault. fault ≡ Memory };

    fn from(_: AllocError) -> Self {
        FieldFault::Memory
    }
}

impl<T: Drop> From<AllocFailed<T>> for FieldFault {
    ghost from_gives = { λ _ fault. fault ≡ Memory };

    fn from(_: AllocFailed<T>) -> Self {
        FieldFault::Memory
    }
}

impl From<CopyFault> for FieldFault {
    ghost from_gives = { λ _ fault. fault ≡ Memory };

    fn from(_: CopyFault) -> Self {
        FieldFault::Memory
    }
}

// The text of a key.
fn text_of(alloc: Global, bytes: &[u8]) -> Result<Text, AllocError>
    ensures { IfOk result (λ text. text ≡ bytes.now) }
{
    Ok(Text::from(Vec::from_slice(alloc, bytes)?))
}

/// Refuses a key that is absent.
pub fn missing<T>(alloc: Global, key: &[u8]) -> Result<T, FieldFault>
    ensures { IsAnswer result (Err (Missing key.now)) }
{
    let key = text_of(alloc, key)?;
    Err(FieldFault::Missing { key })
}

/// Refuses a value of another kind than its key takes.
pub fn wrong_kind<T>(alloc: Global, key: &[u8]) -> Result<T, FieldFault>
    ensures { IsAnswer result (Err (WrongKind key.now)) }
{
    let key = text_of(alloc, key)?;
    Err(FieldFault::WrongKind { key })
}

/// Refuses a name that stands a second time in its list.
pub fn repeated<T>(alloc: Global, name: &[u8]) -> Result<T, FieldFault>
    ensures { IsAnswer result (Err (Repeated name.now)) }
{
    let name = text_of(alloc, name)?;
    Err(FieldFault::Repeated { name })
}

/// Refuses a text that has not the form that its key takes.
pub fn malformed<T>(alloc: Global, key: &[u8]) -> Result<T, FieldFault>
    ensures { IsAnswer result (Err (Malformed key.now)) }
{
    let key = text_of(alloc, key)?;
    Err(FieldFault::Malformed { key })
}

/// Refuses a value that asks for what is not offered.
pub fn unsupported<T>(alloc: Global, key: &[u8]) -> Result<T, FieldFault>
    ensures { IsAnswer result (Err (Unsupported key.now)) }
{
    let key = text_of(alloc, key)?;
    Err(FieldFault::Unsupported { key })
}

/// Refuses a number outside its bounds, or a list that is too long.
pub fn limit<T>(alloc: Global, key: &[u8]) -> Result<T, FieldFault>
    ensures { IsAnswer result (Err (Limit key.now)) }
{
    let key = text_of(alloc, key)?;
    Err(FieldFault::Limit { key })
}
