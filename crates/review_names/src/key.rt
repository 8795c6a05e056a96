//! Keys of tables.
ghost use Rattle.std.specs.Prelude.{◌≡◌, IfOk};

use std::alloc::AllocError;

/// A key that can be copied exactly.
pub trait Key: Ord + Drop + Sized {
    fn copy(&self) -> Result<Self, AllocError>
        ensures { IfOk result (λ k. k ≡ self.now) };
}
