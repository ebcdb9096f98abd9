ghost use Rattle.std.specs.Prelude.{◌≡◌, length, IfOk};
ghost use Rattle.std.specs.Cmp.Lexicographic.{pointwise, lists_equiv, lists_per};
ghost use Rattle.std.specs.Slice.Iter.{iter_rest};

use std::alloc::AllocError;
use std::marker::Model;
use std::slice::Iter;
use std::sync::ArcSlice;

/// Values in order, which copies share. Contracts see it as a list. Two are equal where they are as
/// long and their values are equal one by one.
#[derive(Debug, Drop)]
pub struct SharedSequence<T> {
    items: ArcSlice<T>,
}

impl<T> Model for SharedSequence<T> {
    ghost use Rattle.std.specs.Prelude.{List};
    ghost use Rattle.std.specs.Arc.{arc_slice_items};

    ghost Value = { List T };

    ghost view = { λ shared. arc_slice_items shared.items };
}

impl<T: Drop> SharedSequence<T> {
    /// The values of a `Vec`, in its order. The only error is an allocation failure.
    pub fn from_vec(mut items: Vec<T>) -> Result<Self, AllocError>
        ensures { IfOk result (λ shared. shared ≡ items.items) }
    {
        items.shrink_to_fit();
        Ok(SharedSequence {
            items: ArcSlice::from_vec(items)?,
        })
    }

    /// A copy, which shares the values. Does not allocate: the only error is that 2^63 others share
    /// them.
    pub fn dup(&self) -> Result<Self, AllocError>
        ensures { IfOk result (λ copy. copy ≡ self.now) }
    {
        Ok(SharedSequence {
            items: self.items.clone()?,
        })
    }
}

impl<T> SharedSequence<T> {
    /// The values, in their order.
    pub fn as_slice(&self) -> &[T]
        ensures { result.now ≡ self.now }
    {
        self.items.as_slice()
    }

    /// The values one after another, in their order.
    pub fn iter(&self) -> Iter<'_, T>
        ensures { iter_rest result ≡ self.now }
    {
        self.as_slice().iter()
    }

    /// The number of values.
    pub fn len(&self) -> usize
        ensures { result ≡ length self.now }
    {
        self.items.len()
    }
}

impl<T: PartialEq> PartialEq for SharedSequence<T> {
    ghost eq = { pointwise T.eq };

    ghost laws = { lists_per T.laws };

    fn eq(&self, other: &Self) -> bool {
        self.items == other.items
    }
}

impl<T: Eq> Eq for SharedSequence<T> {
    ghost laws = { lists_equiv T.Eq.laws };
}
