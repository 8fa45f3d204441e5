//! Exact copies.
ghost use Rattle.std.specs.Prelude.{◌≡◌, IfOk};

use crate::members::Table;
use crate::seq::Seq;
use crate::text::Text;
use crate::value::Json;
use std::alloc::{AllocError, Global};

/// A value of which a copy can be made that is equal to it.
///
/// This is more than `Clone` promises where the type isn't known: there a clone is whatever the type calls a clone.
/// A type that derives `Clone` over the types of this crate has a `copy` whose body is `self.clone()`.
pub trait Copied: Sized + Drop {
    /// A copy, in new memory where it needs some.
    fn copy(&self, alloc: Global) -> Result<Self, AllocError>
        ensures { IfOk result (λ copy. copy ≡ self.now) };
}

impl Copied for bool {
    fn copy(&self, _alloc: Global) -> Result<bool, AllocError> {
        Ok(*self)
    }
}

impl Copied for u64 {
    fn copy(&self, _alloc: Global) -> Result<u64, AllocError> {
        Ok(*self)
    }
}

impl Copied for Text {
    fn copy(&self, alloc: Global) -> Result<Text, AllocError> {
        Text::copy(self, alloc)
    }
}

impl Copied for Json {
    fn copy(&self, alloc: Global) -> Result<Json, AllocError> {
        Json::copy(self, alloc)
    }
}

impl<T: Copied> Copied for Option<T> {
    fn copy(&self, alloc: Global) -> Result<Option<T>, AllocError> {
        match self {
            Some(value) => Ok(Some(value.copy(alloc)?)),
            None => Ok(None),
        }
    }
}

impl<T: Copied> Copied for Seq<T> {
    fn copy(&self, alloc: Global) -> Result<Seq<T>, AllocError> {
        let mut copies = Seq::with_capacity(alloc, self.len())?;
        for item in self.as_slice() {
            copies.push(item.copy(alloc)?)?;
        }
        Ok(copies)
    }
}

impl<T: Copied> Copied for Table<T> {
    fn copy(&self, alloc: Global) -> Result<Table<T>, AllocError> {
        Table::copy(self, alloc)
    }
}
