ghost use Rattle.std.specs.Prelude.{◌≡◌, IfOk};

use std::alloc::{AllocError, Global};
use std::marker::Model;
use std::sync::Arc;

/// A value in memory that its copies share, so that a type with such a field stays small and a copy
/// is a count. Contracts see the value. Two are equal where their values are.
#[derive(Debug, Drop)]
pub struct Boxed<T> {
    inner: Arc<T>,
}

impl<T> Model for Boxed<T> {
    ghost use Rattle.std.specs.Arc.{arc_value};

    ghost Value = { T };

    ghost view = { λ boxed. arc_value boxed.inner };
}

impl<T: Drop> Boxed<T> {
    /// A value that is moved to memory of its own.
    pub fn new(alloc: Global, value: T) -> Result<Self, AllocError>
        ensures { IfOk result (λ boxed. boxed ≡ value) }
    {
        Ok(Boxed {
            inner: Arc::new(alloc, value)?,
        })
    }
}

impl<T> Boxed<T> {
    /// The value.
    pub fn get(&self) -> &T
        ensures { result.now ≡ self.now }
    {
        &self.inner
    }

    /// A copy, which shares the value. Does not allocate.
    pub fn dup(&self) -> Result<Self, AllocError>
        ensures { IfOk result (λ copy. copy ≡ self.now) }
    {
        Ok(Boxed {
            inner: Arc::try_clone(&self.inner)?,
        })
    }
}

impl<T: PartialEq> PartialEq for Boxed<T> {
    ghost eq = { T.eq };

    ghost laws = { T.laws };

    fn eq(&self, other: &Self) -> bool {
        *self.inner == *other.inner
    }
}

impl<T: Eq> Eq for Boxed<T> {
    ghost laws = { T.Eq.laws };
}
