//! Numbers as keys of tables.
ghost use Rattle.std.specs.Prelude.{◌≡◌, IfOk};

use crate::Key;
use crate::numbers::{Number, NumberKind};
use std::alloc::AllocError;
use std::marker::PhantomData;

impl<K: NumberKind> Key for Number<K> {
    fn copy(&self) -> Result<Number<K>, AllocError> {
        Ok(Number {
            number: self.number,
            kind: PhantomData,
        })
    }
}
