ghost use Rattle.std.specs.Prelude.{◌≡◌, IfOk};

use std::alloc::{AllocError, Global};

/// The one answer for want of memory, under the name that the signatures of this project use.
pub type Memory = AllocError;

/// A copy that equals its source. Only want of memory can refuse it.
pub trait Duplicate {
    fn copy(&self, alloc: Global) -> Result<Self, Memory>
        ensures { IfOk result (λ it. it ≡ self.now) };
}

impl Duplicate for u8 {
    fn copy(&self, _alloc: Global) -> Result<u8, Memory> {
        Ok(*self)
    }
}

impl Duplicate for u32 {
    fn copy(&self, _alloc: Global) -> Result<u32, Memory> {
        Ok(*self)
    }
}

impl Duplicate for u64 {
    fn copy(&self, _alloc: Global) -> Result<u64, Memory> {
        Ok(*self)
    }
}

impl Duplicate for u128 {
    fn copy(&self, _alloc: Global) -> Result<u128, Memory> {
        Ok(*self)
    }
}
