ghost use Rattle.std.specs.Prelude.{◌≡◌, ◌⊎◌, Ok, Err, IfOk, IfErr};
ghost use Rattle.bosh_base.specs.declared.copyable.CopyFault.TheVariants.{Memory};

use std::alloc::{AllocError, AllocFailed, Global};

/// Why a value was not copied.
#[derive(Clone, Copy, Debug, PartialEq, Eq)]
pub enum CopyFault {
    Memory,
}

impl From<AllocError> for CopyFault {
    ghost from_gives = { λ _ fault. fault ≡ Memory };

    fn from(_: AllocError) -> Self {
        CopyFault::Memory
    }
}

impl<T: Drop> From<AllocFailed<T>> for CopyFault {
    ghost from_gives = { λ _ fault. fault ≡ Memory };

    fn from(_: AllocFailed<T>) -> Self {
        CopyFault::Memory
    }
}

/// A value that can be copied into memory of its own.
pub trait Copyable: Drop {
    /// An equal value.
    fn copy(&self, alloc: Global) -> Result<Self, CopyFault>
        ensures { IfOk result (λ copied. copied ≡ self.now) };
}

impl Copyable for u8 {
    fn copy(&self, _alloc: Global) -> Result<Self, CopyFault> {
        Ok(*self)
    }
}

impl Copyable for u64 {
    fn copy(&self, _alloc: Global) -> Result<Self, CopyFault> {
        Ok(*self)
    }
}

impl<T: Copyable> Copyable for Option<T> {
    fn copy(&self, alloc: Global) -> Result<Self, CopyFault> {
        match self {
            None => Ok(None),
            Some(value) => Ok(Some(value.copy(alloc)?)),
        }
    }
}

/// Two values that were made one after the other, or the fault of one that was not: it refuses only where one of them was
/// refused. A struct is copied as pairs of pairs, so that what was copied before memory ran short is let go here alone.
pub fn both<A: Drop, B: Drop>(
    first: Result<A, CopyFault>,
    second: Result<B, CopyFault>,
) -> Result<(A, B), CopyFault>
    ensures made { IfOk result (λ both. (first ≡ Ok both.0) × (second ≡ Ok both.1)) }
    ensures refused { IfErr result (λ fault. (first ≡ Err fault) ⊎ (second ≡ Err fault)) }
{
    let second = second?;
    Ok((first?, second))
}

/// Copies two values.
pub fn copy_both<A: Copyable, B: Copyable>(
    first: &A,
    second: &B,
    alloc: Global,
) -> Result<(A, B), CopyFault>
    ensures { IfOk result (λ both. (both.0 ≡ first.now) × (both.1 ≡ second.now)) }
{
    both(first.copy(alloc), second.copy(alloc))
}

/// Copies three values.
pub fn copy_three<A: Copyable, B: Copyable, C: Copyable>(
    first: &A,
    second: &B,
    third: &C,
    alloc: Global,
) -> Result<(A, B, C), CopyFault>
    ensures { IfOk result (λ all. (all.0 ≡ first.now) × (all.1 ≡ second.now) × (all.2 ≡ third.now)) }
{
    let ((first, second), third) = both(copy_both(first, second, alloc), third.copy(alloc))?;
    Ok((first, second, third))
}

/// Copies four values.
pub fn copy_four<A: Copyable, B: Copyable, C: Copyable, D: Copyable>(
    first: &A,
    second: &B,
    third: &C,
    fourth: &D,
    alloc: Global,
) -> Result<(A, B, C, D), CopyFault>
    ensures { IfOk result (λ all.
        (all.0 ≡ first.now) × (all.1 ≡ second.now)
        × (all.2 ≡ third.now) × (all.3 ≡ fourth.now)) }
{
    let ((first, second), (third, fourth)) = both(
        copy_both(first, second, alloc),
        copy_both(third, fourth, alloc),
    )?;
    Ok((first, second, third, fourth))
}
