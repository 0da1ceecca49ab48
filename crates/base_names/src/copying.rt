//! Copies that are equal to what they were made of.

ghost use Rattle.std.specs.Prelude.{◌≡◌, IfOk};

use crate::memory::NoMemory;
use std::alloc::Global;

/// A type whose values can be copied, where there is memory for it.
pub trait TryCopy: Drop {
    /// An equal value.
    fn try_copy(&self, alloc: Global) -> Result<Self, NoMemory>
        ensures { IfOk result (λ copy. copy ≡ self.now) };
}

impl<T: Copy> TryCopy for T {
    // No memory is needed.
    fn try_copy(&self, _alloc: Global) -> Result<T, NoMemory>
        ensures { result ≡ Ok self.now }
    {
        Ok(*self)
    }
}
